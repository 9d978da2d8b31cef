// What hears the pieces of a recording.
ghost use Rattle.std.specs.Prelude.{◌≡◌, ◌≢◌, [], Bool, false, true, List, ℕ, Err, IfOk, OnOk, slice_index};
ghost use Rattle.std.proofs.Common.{subst, sym};
ghost use Rattle.packet_finder.specs.Pieces.{Piece.Packet, Piece.Junk};
ghost use Rattle.sub_collect.specs.KeyCounts.{HaveFewKeys, HaveTooManyKeys};
ghost use Rattle.sub_collect.proofs.MarksShown.{sections-free};
ghost use Rattle.guide_receiver.specs.Dones.{counted_heard};
ghost use Rattle.strict_receiver.specs.Earlier.{counted_after};
ghost use Rattle.strict_receiver.proofs.Apart.{sections_taken_after};
ghost use Rattle.guide_receiver.specs.Heard.{ReceiverStandsFor};
ghost use Rattle.guide_receiver.specs.declared.receiver.HearStop.{HearStop};
ghost use Rattle.strict_receiver.specs.Standing.{StrictStandsAfter};
ghost use Rattle.command_words.specs.Commands.{options_said};
ghost use Rattle.epg_listen.specs.Lines.{History, after, counted_in, piece_lines, heard_guide};

use crate::guide::guide_lines;
use crate::lines::{lines_of, lost_and_lines_of};
use command_words::ListenWords;
use guide_receiver::{HearStop, Receiver};
use std::alloc::{AllocError, Global};
use strict_receiver::Strict;

/// What hears the pieces of a recording.
///
/// Contracts may speak of whether it notices losses (`strict`), and of what was heard for which it stands (`stands`).
pub(crate) trait Listener {
    /// Whether it reports breaks, and forgets a PID at each.
    ghost strict: { Bool };

    /// That a listener stands for what was heard.
    ghost stands: { Self → History → Type 0 };

    /// Hears the packet with this number, and gives its lines in the report. Its stops are those of `Receiver::hear`.
    fn hear_lines(
        &mut self,
        alloc: Global,
        number: u64,
        packet: &[u8; 188],
    ) -> Result<Vec<u8>, HearStop>
        ensures sync { result ≡ Err HearStop.Sync → slice_index packet.now 0 ≢ 0x47 }
        ensures lines { (h : History) → stands self.old h → IfOk result (λ text. text.items ≡ piece_lines strict number h (Packet packet.now)) }
        ensures stands { (h : History) → stands self.old h → OnOk result (stands self.new (after strict h (Packet packet.now))) }
        ensures too_many { (h : History) → stands self.old h
            → result ≡ Err HearStop.TooMany → HaveTooManyKeys (counted_in (after strict h (Packet packet.now))) };

    /// Passes over so many bytes, in which no packet was found.
    fn pass_over(&mut self)
        ensures { (h : History) (count : ℕ) → stands self.old h → stands self.new (after strict h (Junk count)) };

    /// The text of the guide of what was heard: with `partial` what is wanting and all that is held, or
    /// else what is wanting or the whole screen.
    fn guide_text(&self, alloc: Global, words: ListenWords) -> Result<Vec<u8>, AllocError>
        ensures { (h : History) → stands self.now h
            → IfOk result (λ text. text.items ≡ heard_guide (options_said words) strict h) };

    /// What it stands for has at most 65,536 keys.
    ghost few: { (listener : Self) (h : History) → stands listener h → HaveFewKeys (counted_in h) };
}

impl Listener for Receiver {
    ghost strict = { false };

    ghost stands = { λ receiver h. (h.earlier ≡ []) × ReceiverStandsFor h.past receiver };

    fn hear_lines(
        &mut self,
        alloc: Global,
        number: u64,
        packet: &[u8; 188],
    ) -> Result<Vec<u8>, HearStop> {
        let dones = match self.hear(packet) {
            Ok(dones) => dones,
            Err(stop) => return Err(stop),
        };
        match lines_of(alloc, number, dones.as_slice()) {
            Ok(text) => Ok(text),
            Err(_) => Err(HearStop::Memory),
        }
    }

    fn pass_over(&mut self) {}

    fn guide_text(&self, alloc: Global, words: ListenWords) -> Result<Vec<u8>, AllocError> {
        guide_lines(alloc, self, words)
    }

    ghost few = { λ receiver h stands. subst (λ (e : List (List (List ℕ))). HaveFewKeys (counted_after e h.past)) (sym stands.0)
        (subst HaveFewKeys (sections-free (counted_heard h.past)) stands.1.completions.few) };
}

impl Listener for Strict {
    ghost strict = { true };

    ghost stands = { λ receiver h. StrictStandsAfter h.earlier h.past receiver };

    fn hear_lines(
        &mut self,
        alloc: Global,
        number: u64,
        packet: &[u8; 188],
    ) -> Result<Vec<u8>, HearStop> {
        let heard = match self.hear(packet) {
            Ok(heard) => heard,
            Err(stop) => return Err(stop),
        };
        match lost_and_lines_of(alloc, number, &heard) {
            Ok(text) => Ok(text),
            Err(_) => Err(HearStop::Memory),
        }
    }

    fn pass_over(&mut self) {
        self.restart();
    }

    fn guide_text(&self, alloc: Global, words: ListenWords) -> Result<Vec<u8>, AllocError> {
        guide_lines(alloc, self.receiver(), words)
    }

    ghost few = { λ receiver h stands. subst HaveFewKeys (sections_taken_after h.earlier h.past) stands.heard.completions.few };
}
