// The sections of a cycle, laid end to end, in the order of its plan.
ghost use Rattle.std.specs.Prelude.{◌≡◌, ◌*◌, ◌<◌, [], ◌∷◌, ◌++◌, List, length, take, drop, OnOk, OnErr};
ghost use Rattle.version_book.specs.Airings.{AiredTables, CycleForm};
ghost use Rattle.version_book.specs.Book.{BookStandsFor, aired};
ghost use Rattle.air_model.specs.Air.{cycle_sections, CanBeTold};
ghost use Rattle.section_codec.specs.SubTables.{AreFit};
ghost use Rattle.carousel_player.specs.Queue.{IsBegun};
ghost use Rattle.air_model.specs.Laying.{IsPlaced};

use crate::SectionQueue;
use air_model::{CyclePlan, LaidSections, Placed, plan_cycle};
use guide_model::Offset;
use section_codec::Tables;
use si_time::Moment;
use std::alloc::{AllocError, Global};
use std::marker::Model;
use version_book::VersionBook;

// The sections that are laid, each once, the place of the next one to be sent, and the order behind
// it. Contracts see the sections still to be sent.
#[derive(Drop)]
pub(crate) struct CycleQueue {
    alloc: Global,
    laid: LaidSections,
    at: Option<usize>,
    plan: CyclePlan,
}

impl Model for CycleQueue {
    ghost use Rattle.std.specs.Prelude.{List, length};
    ghost use Rattle.air_model.specs.Air.{Sent};
    ghost use Rattle.carousel_player.specs.Laying.{order_left, sections_left, AreToCome};

    ghost Value = { List Sent };

    ghost view = { λ q. sections_left q.laid.bytes.items q.laid.placed.items
        (order_left q.at q.plan) };

    ghost invariant = { λ q. AreToCome (length q.laid.bytes.items) q.laid.placed.items
        (order_left q.at q.plan) };
}

impl SectionQueue for CycleQueue {
    ghost sections = { λ q. q };

    ghost keeps = { λ a b. Unit {0} };

    fn pid(&self) -> Option<u16> {
        let Some(at) = self.at else {
            return None;
        };
        Some(self.laid.placed[at].pid)
    }

    fn bytes(&self) -> &[u8] {
        let Some(at) = self.at else {
            return &[];
        };
        section_at(&self.laid.bytes, self.laid.placed[at])
    }

    fn pass(&mut self) {
        self.at = self.plan.next();
    }

    ghost keeps_at_once = { λ a. tt };

    ghost keeps_later = { λ a b c p q. tt };
}

impl CycleQueue {
    /// No section.
    pub(crate) fn none(alloc: Global) -> CycleQueue
        ensures { result ≡ [] }
    {
        CycleQueue {
            alloc,
            laid: LaidSections::none(alloc),
            at: None,
            plan: CyclePlan::ended(alloc),
        }
    }

    /// The sections of the cycle of these sub-tables, with the versions that the book gives them,
    /// and the TDT of this moment, and its TOT where there are offsets, in the order of this quota.
    /// All memory is taken first; where it is wanting no section is to come.
    pub(crate) fn begin(
        &mut self,
        book: &mut VersionBook,
        tables: &Tables,
        quota: u32,
        offsets: &[Offset],
        moment: Moment,
    ) -> Result<(), AllocError>
        requires fit { AreFit tables.now.list }
        requires offsets { CanBeTold offsets.now }
        requires moment { moment.0 < 65536 * 86400 }
        ensures versions { OnOk result ((past : List AiredTables) (form : CycleForm)
            → BookStandsFor past book.old
            → BookStandsFor (past ++ aired tables.now.list moment.0 form ∷ []) book.new) }
        ensures sections { OnOk result ((past : List AiredTables) → BookStandsFor past book.old
            → self.new ≡ cycle_sections past
            (aired tables.now.list moment.0 (record { quota = quota; offsets = offsets.now }))) }
        ensures begun { IsBegun 0 self.new }
        ensures none { OnErr result (self.new ≡ []) }
        ensures kept { OnErr result (book.new ≡ book.old) }
    {
        self.at = None;
        let list = tables.list.as_slice();
        self.laid.take_room(list, offsets)?;
        let mut plan = plan_cycle(self.alloc, list, quota, offsets)?;
        self.laid.lay(self.alloc, book, tables, moment, offsets)?;
        self.at = plan.next();
        self.plan = plan;
        Ok(())
    }
}

fn section_at(bytes: &[u8], placed: Placed) -> &[u8]
    requires { IsPlaced (length bytes.now) placed }
    ensures { result.now ≡ take placed.len (drop placed.start bytes.now) }
{
    let (_, from) = bytes.split_at(placed.start);
    let (section, _) = from.split_at(placed.len);
    section
}
