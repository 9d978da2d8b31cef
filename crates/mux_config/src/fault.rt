// The faults of a description.

/// A word of the description that has to be there.
#[derive(Debug, Clone, Copy, PartialEq, Eq)]
pub enum Word {
    Network,
    Stream,
    Service,
    End,
}

/// What is wrong with a description: the number of a line (from 1) that is no record; of one with a field outside its range;
/// of one that repeats an earlier line, and the number of that; a word that is missing; or the number of a line with which
/// the records first pass the room in a section (ISO/IEC 13818-1, 2.4.4.8; EN 300 468, 5.2.1 and 5.2.3).
#[derive(Debug, Clone, Copy, PartialEq, Eq)]
pub enum MuxFault {
    Line(u64),
    Range(u64),
    Twice(u64, u64),
    Missing(Word),
    Full(u64),
}
