// The parts of a guide.
ghost use Rattle.std.specs.Prelude.{◌≡◌};
ghost use Rattle.std.specs.Option.{option_copied};
ghost use Rattle.publication.specs.Parts.{part_in};

use guide_model::ServiceGuide;
use page_share::PageGuide;

/// A guide's part of the service with this id, where it has one.
pub(crate) fn part_in(guide: &PageGuide, id: u16) -> Option<&ServiceGuide>
    ensures { option_copied result ≡ part_in id guide.now.guide.services }
{
    'parts: for i in 0..guide.len() {
        let part = guide.at(i);
        if part.service == id {
            return Some(part);
        }
    }
    None
}
