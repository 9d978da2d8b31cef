// Keys with what they were last given.
use section_codec::{Key, NumberedBodies};
use si_base::Items;

/// A key with the version_number, below 32, and the content that it was last given (ISO/IEC 13818-1, 2.4.4.5).
#[derive(Drop)]
pub struct KeyVersion {
    pub key: Key,
    pub version: u8,
    pub sections: NumberedBodies,
}

/// Keys with what they were last given.
pub type KeyVersions = Items<KeyVersion>;
