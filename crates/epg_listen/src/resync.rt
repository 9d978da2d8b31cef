// The pieces of a recording that may be damaged.
ghost use Rattle.std.specs.Prelude.{◌≡◌, true, false, None, IfOk};
ghost use Rattle.packet_finder.specs.Finding.{fresh};
ghost use Rattle.epg_listen.specs.Giving.{HasFound, has_piece, pieces_to_come};

use crate::piece_reader::PieceReader;
use packet_finder::{FindStop, Finder, Found};
use packet_reader::PacketStop;
use si_causes::Source;
use std::alloc::{AllocError, Global};

/// A finder of packets, and whether it gave a piece.
#[derive(Drop)]
pub(crate) struct Resync<S: Source> {
    finder: Finder<S>,
    given: bool,
}

impl<S: Source> Resync<S> {
    // At the front of its source.
    pub(crate) fn open(alloc: Global, source: S) -> Result<Resync<S>, AllocError>
        ensures { IfOk result (λ pieces. pieces ≡ record { finder = fresh source; given = false }) }
    {
        let finder = Finder::open(alloc, source)?;
        Ok(Resync {
            finder,
            given: false,
        })
    }

    // Gives the source back.
    pub(crate) fn close(self) -> S
        ensures { result ≡ self.finder.source }
    {
        self.finder.close()
    }
}

impl<S: Source> PieceReader for Resync<S> {
    ghost resync = { true };

    ghost left = { λ pieces. S.left pieces.finder.source };

    ghost faults = { λ pieces. S.faults pieces.finder.source };

    ghost going = { λ pieces. pieces.finder.stop ≡ None };

    ghost last = { λ pieces. pieces.finder.packet };

    ghost gave = { λ pieces bytes heard. HasFound S.left pieces.finder bytes heard × (pieces.given ≡ has_piece heard) };

    ghost to_come = { λ pieces. pieces_to_come pieces.finder };

    ghost same = { λ old new. S.same old.finder.source new.finder.source };

    fn next_piece(&mut self) -> Result<Option<Found>, PacketStop> {
        match self.finder.next() {
            Ok(Some(found)) => {
                self.given = true;
                Ok(Some(found))
            }
            Ok(None) => {
                if self.given && self.finder.number() == 0 {
                    return Err(PacketStop::Broken(0));
                }
                Ok(None)
            }
            Err(FindStop::TooLong) => Err(PacketStop::TooLong),
            Err(FindStop::Failed) => Err(PacketStop::Failed),
        }
    }

    fn last_packet(&self) -> &[u8; 188] {
        self.finder.packet()
    }

    fn packet_count(&self) -> u64 {
        self.finder.number()
    }

    ghost same_at_once = { λ pieces. S.same_at_once pieces.finder.source };

    ghost same_later = { λ a b c first then. S.same_later a.finder.source b.finder.source c.finder.source first then };
}
