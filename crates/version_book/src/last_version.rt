// What a version book holds.
ghost use Rattle.std.specs.Prelude.{◌<◌};

use section_codec::{Key, NumberedBodies};
use std::collections::BTreeMap;

// The version and the content that a key was last given.
#[derive(Drop)]
pub struct LastVersion {
    pub version: u8,
    pub content: NumberedBodies,
    ghost in_range: { version < 32 },
}

// A slot for each key, which is empty until the key is first given a version.
pub type LastVersions = BTreeMap<Key, Option<LastVersion>>;
