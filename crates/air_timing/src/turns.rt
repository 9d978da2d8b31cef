// Which section of a Fast sub-table stands in which lead.
ghost use Rattle.std.specs.Prelude.{◌≡◌, ◌<◌};
ghost use Rattle.air_timing.specs.Turns.{often_of, round_of, turn_of};

/// In each so many leads the sub-tables with four sections or fewer have a turn, where the largest
/// Fast sub-table has `largest` sections: each quarter of a round, or each lead.
pub fn often_of(largest: u32) -> u32
    ensures { result ≡ often_of largest }
{
    (largest / 4).max(1)
}

/// So many leads are a round: as many as the largest Fast sub-table has sections, rounded up.
pub fn round_of(largest: u32) -> u64
    ensures { result ≡ round_of largest }
{
    let often = u64::from(often_of(largest));
    (u64::from(largest) + often - 1) / often * often
}

/// The section of a Fast sub-table that stands in a lead, by the lead's place in its round, where
/// the sub-table has so many sections and stands at `place` among the Fast ones. None where it has
/// no turn.
pub fn turn_of(often: u32, place: u32, lead: u32, sections: u32) -> Option<u32>
    requires often { 0 < often }
    requires sections { 0 < sections }
    ensures { result ≡ turn_of often place lead sections }
{
    if sections > 4 {
        Some(lead % sections)
    } else if lead % often == place % often {
        Some(lead / often % sections)
    } else {
        None
    }
}
