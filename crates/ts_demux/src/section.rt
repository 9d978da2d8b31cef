// Heard sections.
use si_base::{Bytes, Items};

/// A section as it was heard: the PID of its packets and its bytes, the header's first three and as many as
/// section_length tells (ISO/IEC 13818-1, 2.4.4). Nothing of it is looked at but section_length.
#[derive(Drop)]
pub struct RawSection {
    pub pid: u16,
    pub bytes: Bytes,
}

/// Sections in the order in which they ended.
pub type RawSections = Items<RawSection>;
