// The text of a guide of what was heard.
ghost use Rattle.std.specs.Prelude.{◌≡◌, List, ℕ, IfOk};
ghost use Rattle.ts_demux.specs.declared.section.RawSection.{RawSection};
ghost use Rattle.sub_collect.specs.Marks.{Taken};
ghost use Rattle.guide_screen.specs.Screen.{heard_of};
ghost use Rattle.guide_parts.specs.Parts.{parts_over};
ghost use Rattle.guide_parts.specs.PartScreen.{part_guide};
ghost use Rattle.guide_receiver.specs.Guides.{view_after};
ghost use Rattle.guide_receiver.specs.Heard.{ReceiverStandsAfter};
ghost use Rattle.guide_text.specs.Guides.{guide_text_with};
ghost use Rattle.guide_parts.specs.PartTexts.{part_text_with};
ghost use Rattle.command_words.specs.Commands.{options_said};
ghost use Rattle.epg_listen.specs.Lines.{guide_shown};

use command_words::ListenWords;
use guide_parts::{PartGuide, parts_heard, print_parts_with};
use guide_receiver::Receiver;
use guide_text::print_heard_with;
use std::alloc::{AllocError, Global};

/// The text of the guide of a receiver: with `partial` what is wanting and all that it holds, or else
/// what is wanting or the whole screen; with `details` also the descriptors that no other line shows
/// whole.
pub(crate) fn guide_lines(
    alloc: Global,
    receiver: &Receiver,
    words: ListenWords,
) -> Result<Vec<u8>, AllocError>
    ensures { (earlier : List RawSection) (packets : List (List ℕ)) (taken : List Taken)
        → ReceiverStandsAfter earlier packets taken receiver.now
        → IfOk result (λ text. text.items
        ≡ guide_shown (options_said words) (view_after earlier packets taken) taken) }
{
    if words.partial {
        part_lines(alloc, receiver, words.details)
    } else {
        whole_lines(alloc, receiver, words.details)
    }
}

// The needs that are not met, or else the whole screen.
fn whole_lines(alloc: Global, receiver: &Receiver, details: bool) -> Result<Vec<u8>, AllocError>
    ensures { (earlier : List RawSection) (packets : List (List ℕ)) (taken : List Taken)
        → ReceiverStandsAfter earlier packets taken receiver.now
        → IfOk result (λ text. text.items
        ≡ guide_text_with details (heard_of (view_after earlier packets taken))) }
{
    let heard = receiver.guide()?;
    let mut text = Vec::new(alloc);
    print_heard_with(alloc, details, &heard, &mut text)?;
    Ok(text)
}

// The needs that are not met, and all that is held.
fn part_lines(alloc: Global, receiver: &Receiver, details: bool) -> Result<Vec<u8>, AllocError>
    ensures { (earlier : List RawSection) (packets : List (List ℕ)) (taken : List Taken)
        → ReceiverStandsAfter earlier packets taken receiver.now
        → IfOk result (λ text. text.items
        ≡ part_text_with details (part_guide (parts_over (view_after earlier packets taken) taken))) }
{
    let parts = parts_of(alloc, receiver)?;
    let mut text = Vec::new(alloc);
    print_parts_with(alloc, details, &parts, &mut text)?;
    Ok(text)
}

// What a receiver has to show, though something is wanting.
fn parts_of(alloc: Global, receiver: &Receiver) -> Result<PartGuide, AllocError>
    ensures { (earlier : List RawSection) (packets : List (List ℕ)) (taken : List Taken)
        → ReceiverStandsAfter earlier packets taken receiver.now
        → IfOk result (λ parts. parts
        ≡ part_guide (parts_over (view_after earlier packets taken) taken)) }
{
    let latest = receiver.latest();
    let others = receiver.others()?;
    parts_heard(
        alloc,
        receiver.collector(),
        latest,
        receiver.offsets(),
        &others,
    )
}
