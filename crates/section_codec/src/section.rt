// Sections.
use si_base::Bytes;

/// The header of a section in the long form: table_id, table_id_extension, version_number (below 32),
/// current_next_indicator, section_number and last_section_number.
#[derive(Clone, Copy, PartialEq, Eq)]
pub struct LongHeader {
    pub table: u8,
    pub ext: u16,
    pub version: u8,
    pub current: bool,
    pub number: u8,
    pub last: u8,
}

/// A section: in the long form with its header and body, or in the short form with its table_id and body.
#[derive(Drop)]
pub enum Section {
    Long(LongHeader, Bytes),
    Short(u8, Bytes),
}

/// Why bytes are no section: their length, their CRC (kept, found), their syntax, or want of memory.
#[derive(Clone, Copy, PartialEq, Eq)]
pub enum BadSection {
    Length,
    Crc(u32, u32),
    Syntax,
    Memory,
}
