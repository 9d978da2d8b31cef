// A cycle that is being sent.
ghost use Rattle.std.specs.Prelude.{◌≡◌, ◌*◌, ◌<◌, [], ◌∷◌, ◌++◌, List, OnOk, OnErr};
ghost use Rattle.version_book.specs.Airings.{AiredTables, CycleForm};
ghost use Rattle.version_book.specs.Book.{BookStandsFor, aired};
ghost use Rattle.air_model.specs.Air.{cycle_sections, CanBeTold};
ghost use Rattle.air_model.specs.Making.{each_dense};
ghost use Rattle.section_codec.specs.SubTables.{AreFit};

use crate::queue::CycleQueue;
use crate::{PackedSections, PacketQueue};
use guide_model::Offset;
use section_codec::Tables;
use si_time::Moment;
use std::alloc::{AllocError, Global};
use std::marker::Model;
use version_book::VersionBook;

// Its sections, and how far they were sent. Contracts see the packets still to come, before they
// are counted.
#[derive(Drop)]
pub(crate) struct Cycle {
    packed: PackedSections<CycleQueue>,
}

impl Model for Cycle {
    ghost use Rattle.std.specs.Prelude.{List};
    ghost use Rattle.ts_packets.specs.Bytes.{Packet};
    ghost use Rattle.carousel_player.specs.Queue.{IsBegun};
    ghost use Rattle.carousel_player.specs.Packing.{packets_behind};

    ghost Value = { List Packet };

    ghost view = { λ c. packets_behind c.packed.queue c.packed.from };

    ghost invariant = { λ c. IsBegun c.packed.from c.packed.queue };
}

impl PacketQueue for Cycle {
    ghost packets = { λ c. c };

    fn is_ended(&self) -> bool {
        self.packed.is_ended()
    }

    fn put_next(&mut self, into: &mut [u8]) {
        self.packed.put_next(into);
    }
}

impl Cycle {
    /// The end of a cycle.
    pub(crate) fn ended(alloc: Global) -> Cycle
        ensures { result ≡ [] }
    {
        Cycle {
            packed: PackedSections {
                queue: CycleQueue::none(alloc),
                from: 0,
            },
        }
    }

    /// Begins the cycle of these sub-tables, with the versions that the book gives them, and the
    /// TDT of this moment, and its TOT where there are offsets, in the order of this quota. All
    /// memory is taken first.
    pub(crate) fn begin(
        &mut self,
        book: &mut VersionBook,
        tables: &Tables,
        quota: u32,
        offsets: &[Offset],
        moment: Moment,
    ) -> Result<(), AllocError>
        requires ended { self.old ≡ [] }
        requires fit { AreFit tables.now.list }
        requires offsets { CanBeTold offsets.now }
        requires moment { moment.0 < 65536 * 86400 }
        ensures versions { OnOk result ((past : List AiredTables) (form : CycleForm)
            → BookStandsFor past book.old
            → BookStandsFor (past ++ aired tables.now.list moment.0 form ∷ []) book.new) }
        ensures begun { OnOk result ((past : List AiredTables) → BookStandsFor past book.old
            → self.new ≡ each_dense (cycle_sections past
            (aired tables.now.list moment.0 (record { quota = quota; offsets = offsets.now })))) }
        ensures ended { OnErr result (self.new ≡ self.old) }
        ensures kept { OnErr result (book.new ≡ book.old) }
    {
        self.packed.from = 0;
        self.packed
            .queue
            .begin(book, tables, quota, offsets, moment)
    }
}
