// Event information.
use guide_model::ScreenEvents;

/// What a body begins with: transport_stream_id (`stream`), original_network_id, segment_last_section_number and
/// last_table_id (EN 300 468, 5.2.4).
#[derive(Clone, Copy, PartialEq, Eq)]
pub struct EitHead {
    pub stream: u16,
    pub original: u16,
    pub segment_last: u8,
    pub last_table: u8,
}

/// The body of an event information section as it was heard.
#[derive(Drop)]
pub struct Eit {
    pub head: EitHead,
    pub events: ScreenEvents,
}
