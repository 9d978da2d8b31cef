// The rules of an air.

/// The first rule that a packet breaks, of those of a packet that goes on with an air (ISO/IEC 13818-1, 2.4.3.2 and 2.4.4.2).
#[derive(Clone, Copy, PartialEq, Eq)]
pub enum Rule {
    /// The header is not one that is written: the sync byte, no error, no priority, not scrambled, a payload alone.
    Shape,
    /// The cycle has no byte of a section left on this PID.
    Pid,
    /// The continuity_counter is not the PID's next one.
    Counter,
    /// No section is open or left to begin, or the pointer_field is not the rest of the open one or exceeds 182.
    Pointer,
    /// All else: the payload is not that of the sections.
    Bytes,
}
