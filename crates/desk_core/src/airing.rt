// What is on air.
use page_share::PageGuide;
use si_time::Moment;
use std::marker::Model;

/// A publication on air: its number, the moment at which it went on air, and what it publishes. Contracts see the guide
/// without the room that it has.
#[derive(Drop)]
pub struct Airing {
    pub number: u64,
    pub moment: Moment,
    pub guide: PageGuide,
}

impl Model for Airing {
    ghost use Rattle.desk_core.specs.AiringView.{AiringView};

    ghost Value = { AiringView };

    ghost view = { λ a. record { number = a.number; moment = a.moment; guide = a.guide.guide } };
}
