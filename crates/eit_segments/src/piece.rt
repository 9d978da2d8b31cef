// The sections of a schedule.
ghost use Rattle.std.specs.Prelude.{◌≡◌};
ghost use Rattle.eit_segments.specs.Schedule.{section_events};

use guide_model::Event;
use si_base::Items;

/// A section of a schedule: its table_id, its section_number, the last_section_number of its table, the
/// segment_last_section_number of its segment, and its events, those `from` up to and without `to`.
#[derive(Clone, Copy)]
pub struct Piece {
    pub table: u8,
    pub number: u8,
    pub last: u8,
    pub segment_last: u8,
    pub from: usize,
    pub to: usize,
}

/// Sections in the order in which they are sent: table by table, in ascending order of their numbers.
pub type Pieces = Items<Piece>;

impl Piece {
    /// The events of the section, of those of its service. It takes no memory.
    pub fn events_of<'a>(&self, events: &'a [Event]) -> &'a [Event]
        ensures { result.now ≡ section_events self.now events.now }
    {
        let to = self.to.min(events.len());
        let from = self.from.min(to);
        &events[from..to]
    }
}
