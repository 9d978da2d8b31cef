// A cycle that is being sent: its runs, and null packets between them.
ghost use Rattle.std.specs.Prelude.{◌≡◌, ◌*◌, ◌<◌, ◌==◌, ◌++◌, ◌∷◌, [], List, ℕ, length, IfOk, OnOk, OnErr, IsTrue, ◌↔◌};
ghost use Rattle.ts_packets.specs.Bytes.{Packet, bytes_of_packet};
ghost use Rattle.air_model.specs.Air.{CanBeTold};
ghost use Rattle.air_model.specs.Bursts.{null_packet};
ghost use Rattle.cycle_timing.specs.Again.{IsRight, leads_in};
ghost use Rattle.section_codec.specs.SubTables.{AreFit};
ghost use Rattle.version_book.specs.Airings.{AiredTables, CycleForm};
ghost use Rattle.version_book.specs.Book.{BookStandsFor, aired};
ghost use Rattle.cycle_player.specs.Clock.{reads};
ghost use Rattle.cycle_player.specs.Playing.{uncounted_at};

use crate::clock::Clock;
use crate::runs::{Begun, RunQueue};
use carousel_player::{PackedSections, PacketQueue};
use guide_model::Offset;
use section_codec::Tables;
use si_time::Moment;
use std::alloc::{AllocError, Global};
use std::marker::Model;
use version_book::VersionBook;

/// A cycle at a bit rate. Contracts see the packets still to come, before they are counted.
#[derive(Drop)]
pub(crate) struct Cycle {
    packed: PackedSections<RunQueue>,
}

impl Model for Cycle {
    ghost use Rattle.std.specs.Prelude.{List};
    ghost use Rattle.ts_packets.specs.Bytes.{Packet};
    ghost use Rattle.carousel_player.specs.Queue.{IsBegun};
    ghost use Rattle.cycle_player.specs.Running.{run_of, packets_left};

    ghost Value = { List Packet };

    ghost view = { λ c. packets_left c.packed.queue c.packed.from };

    ghost invariant = { λ c. IsBegun c.packed.from (run_of c.packed.queue) };
}

impl PacketQueue for Cycle {
    ghost packets = { λ c. c };

    fn is_ended(&self) -> bool {
        self.packed.queue.is_over()
    }

    fn put_next(&mut self, into: &mut [u8]) {
        if !self.packed.queue.is_between() {
            self.packed.put_next(into);
        } else if self.packed.queue.pass_null() {
            put_null(into);
        } else {
            self.packed.put_next(into);
        }
    }
}

impl Cycle {
    /// The end of a cycle.
    pub(crate) fn ended(alloc: Global, rate: u32) -> Cycle
        requires { 0 < rate }
        ensures { result ≡ [] }
    {
        Cycle {
            packed: PackedSections {
                queue: RunQueue::ended(alloc, rate),
                from: 0,
            },
        }
    }

    /// Begins the cycle of these sub-tables, as a `RunQueue` does.
    pub(crate) fn begin(
        &mut self,
        book: &mut VersionBook,
        tables: &Tables,
        offsets: &[Offset],
        moment: Moment,
        rate: u32,
        clock: Clock,
    ) -> Result<Begun, AllocError>
        requires ended { self.old ≡ [] }
        requires fit { AreFit tables.now.list }
        requires offsets { CanBeTold offsets.now }
        requires moment { moment.0 < 65536 * 86400 }
        requires rate { 0 < rate }
        ensures versions { OnOk result ((past : List AiredTables) (form : CycleForm)
            → BookStandsFor past book.old
            → BookStandsFor (past ++ aired tables.now.list moment.0 form ∷ []) book.new) }
        ensures begun { OnOk result ((past : List AiredTables) (quota : ℕ)
            → BookStandsFor past book.old → self.new ≡ uncounted_at rate (reads clock) past
            (aired tables.now.list moment.0 (record { quota = quota; offsets = offsets.now }))) }
        ensures packets { IfOk result (λ begun. (past : List AiredTables)
            → BookStandsFor past book.old → begun.packets ≡ length self.new) }
        ensures right { IfOk result (λ begun. (past : List AiredTables) (a : AiredTables)
            → a.tables ≡ tables.now.list → a.form.offsets ≡ offsets.now
            → IsTrue begun.is_right ↔ IsRight rate past a) }
        ensures leads { IfOk result (λ begun. (past : List AiredTables) (a : AiredTables)
            → a.tables ≡ tables.now.list → a.form.offsets ≡ offsets.now
            → begun.leads ≡ leads_in rate past a) }
        ensures ended { OnErr result (self.new ≡ self.old) }
        ensures kept { OnErr result (book.new ≡ book.old) }
    {
        self.packed.from = 0;
        self.packed
            .queue
            .begin(book, tables, offsets, moment, rate, clock)
    }
}

// A null packet over 188 bytes: payload_unit_start_indicator 0, PID 0x1FFF, and fill (ISO/IEC
// 13818-1, 2.4.3.3). It is not yet counted.
fn put_null(into: &mut [u8])
    requires { length into.old ≡ 188 }
    ensures { into.new ≡ bytes_of_packet null_packet }
{
    into.fill(0xFF);
    into[0] = 0x47;
    into[1] = 0x1F;
    into[3] = 0x10;
}
