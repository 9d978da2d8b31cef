// Completions.
ghost use Rattle.std.specs.Prelude.{◌≡◌};
ghost use Rattle.sub_collect.specs.Completions.{repeats};

use section_codec::{Key, NumberedBodies, same_content};

/// A sub-table that was heard whole: its key, its version_number, and its content, which is the bodies of
/// its sections in ascending order of their numbers (EN 300 468, 5.1.1).
#[derive(Drop)]
pub struct Completed {
    pub key: Key,
    pub version: u8,
    pub sections: NumberedBodies,
}

impl Completed {
    // Whether a completion has the version and the content of this one.
    pub(crate) fn is_repeated_by(&self, other: &Completed) -> bool
        ensures { result ≡ repeats self.now other.now }
    {
        self.version == other.version
            && same_content(self.sections.as_slice(), other.sections.as_slice())
    }
}
