// Sub-tables and what names them.
use si_base::{Bytes, Items};

/// What names a sub-table on the wire: its PID, table_id and table_id_extension and, where the table has
/// them, transport_stream_id and original_network_id (else 0).
#[derive(Clone, Copy, PartialEq, Eq, PartialOrd, Ord)]
pub struct Key {
    pub pid: u16,
    pub table: u8,
    pub ext: u16,
    pub stream: u16,
    pub network: u16,
}

/// The section_number and the body of a section.
#[derive(Drop)]
pub struct NumberedBody {
    pub number: u8,
    pub body: Bytes,
}

/// The content of a sub-table: its sections in ascending order of their numbers.
pub type NumberedBodies = Items<NumberedBody>;

/// How often a cycle repeats a sub-table.
#[derive(Clone, Copy, PartialEq, Eq)]
pub enum Tier3 {
    Fast,
    Near,
    Far,
}

/// What names a sub-table beside its PID, table_id and table_id_extension.
#[derive(Clone, Copy)]
pub enum Naming {
    /// Nothing else: of PAT, PMT and NIT.
    Extension,
    /// original_network_id, with which each body begins: of an SDT.
    Network,
    /// transport_stream_id and original_network_id, with which each body begins: of an EIT.
    Stream,
}

/// A sub-table with its content.
#[derive(Drop)]
pub struct SubTable {
    pub key: Key,
    pub tier: Tier3,
    pub sections: NumberedBodies,
}

/// Sub-tables in the order in which a cycle sends them.
pub type SubTables = Items<SubTable>;

/// The sub-tables of one publication.
#[derive(Drop)]
pub struct Tables {
    pub list: SubTables,
}
