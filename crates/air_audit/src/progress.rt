// How far a cycle has come.
ghost use Rattle.std.specs.Prelude.{◌≡◌, ◌+◌, ◌*◌, ◌<◌, ◌≤◌, ◌↔◌, ◌++◌, ◌∷◌, [], ℕ, List, false, cond, length, map, IsTrue, IfOk, IfSome, OnOk, OnErr};
ghost use Rattle.section_codec.specs.SubTables.{AreFit};
ghost use Rattle.version_book.specs.Airings.{AiredTables, CycleForm};
ghost use Rattle.version_book.specs.Book.{BookStandsFor, aired};
ghost use Rattle.std.specs.List.{AllByRecursion};
ghost use Rattle.air_model.specs.Air.{at_places, cycle_sections};
ghost use Rattle.air_model.specs.Laying.{IsPlaced, sent_at};
ghost use Rattle.air_audit.specs.Fronts.{nothing, all_waiting, to_come_on};
ghost use Rattle.air_audit.specs.Telling.{told};
ghost use Rattle.air_audit.specs.Checking.{is_nothing};
ghost use Rattle.air_audit.specs.Audits.{on_pid};
ghost use Rattle.air_audit.specs.Progress.{HasMoved, IsReady};
ghost use Rattle.air_model.specs.Air.{CanBeTold};

use crate::lanes::{Lane, is_busy, moved};
use crate::linking::{Room, count_busy, link, put_in_order, take_room};
use air_model::{LaidSections, Placed, Rule};
use guide_model::Offset;
use section_codec::Tables;
use si_time::Moment;
use std::alloc::{AllocError, Global};
use std::marker::Model;
use version_book::VersionBook;

// The sections of a cycle, laid end to end, where they stand in the order in which they are sent, and the place of the next one of its
// PID for each; a lane for each PID, and on how many of them something is to come. Contracts see what is to come on each PID.
#[derive(Drop)]
pub(crate) struct Progress {
    bytes: Vec<u8>,
    placed: Vec<Placed>,
    links: Vec<usize>,
    lanes: Vec<Lane>,
    busy: usize,
}

impl Model for Progress {
    ghost use Rattle.std.specs.Prelude.{List};
    ghost use Rattle.air_audit.specs.Fronts.{ToCome};
    ghost use Rattle.air_audit.specs.Progress.{all_shown, AreWithin};

    ghost Value = { List ToCome };

    ghost view = { λ p. all_shown p.bytes.items p.placed.items p.lanes.items };

    ghost invariant = { λ p. AreWithin p.bytes.items p.placed.items p.links.items p.lanes.items p.busy };
}

impl Progress {
    /// The end of a cycle. It takes no memory.
    pub(crate) fn ended(alloc: Global) -> Progress
        ensures { result ≡ [] }
    {
        Progress {
            bytes: Vec::new(alloc),
            placed: Vec::new(alloc),
            links: Vec::new(alloc),
            lanes: Vec::new(alloc),
            busy: 0,
        }
    }

    /// The beginning of the cycle of these sub-tables, with the versions that the book gives them, and the TDT of this moment, in the
    /// order of this quota. All memory is taken first: where it is wanting, the book stays as it was.
    pub(crate) fn begin(
        alloc: Global,
        book: &mut VersionBook,
        tables: &Tables,
        quota: u32,
        offsets: &[Offset],
        moment: Moment,
    ) -> Result<Progress, AllocError>
        requires fit { AreFit tables.now.list }
        requires offsets { CanBeTold offsets.now }
        requires moment { moment.0 < 65536 * 86400 }
        ensures versions { OnOk result ((past : List AiredTables) (form : CycleForm) → BookStandsFor past book.old
            → BookStandsFor (past ++ aired tables.now.list moment.0 form ∷ []) book.new) }
        ensures begun { IfOk result (λ progress. (past : List AiredTables) → BookStandsFor past book.old → (pid : ℕ)
            → to_come_on progress pid ≡ all_waiting (on_pid pid (cycle_sections past (aired tables.now.list moment.0 (record { quota = quota; offsets = offsets.now }))))) }
        ensures memory { OnErr result (book.new ≡ book.old) }
    {
        let list = tables.list.as_slice();
        let mut laid = LaidSections::none(alloc);
        laid.take_room(list, offsets)?;
        let room = take_room(alloc, list, quota, offsets)?;
        laid.lay(alloc, book, tables, moment, offsets)?;
        Ok(Progress::of(laid, room))
    }

    // The beginning of a cycle that sends these sections in the order for which there is room. It takes no memory.
    fn of(laid: LaidSections, mut room: Room) -> Progress
        requires placed { AllByRecursion (IsPlaced (length laid.bytes.items)) laid.placed.items }
        requires within { AllByRecursion (λ at. at < length laid.placed.items) room.order.items }
        requires ready { IsReady room }
        ensures { (pid : ℕ) → to_come_on result pid
            ≡ all_waiting (on_pid pid (map (sent_at laid.bytes.items) (at_places laid.placed.items room.order.items))) }
    {
        put_in_order(&mut room.placed, &laid.placed, &room.order);
        link(&room.placed, &mut room.links, &mut room.lanes);
        let busy = count_busy(&room.lanes, room.placed.len());
        Progress {
            bytes: laid.bytes,
            placed: room.placed,
            links: room.links,
            lanes: room.lanes,
            busy,
        }
    }

    /// Whether the cycle has ended.
    pub(crate) fn is_ended(&self) -> bool
        ensures { IsTrue result ↔ ((pid : ℕ) → to_come_on self.now pid ≡ nothing) }
    {
        self.busy == 0
    }

    /// Whether no section byte is left on a PID.
    pub(crate) fn is_nothing_on(&self, pid: u16) -> bool
        ensures { result ≡ is_nothing (to_come_on self.now pid) }
    {
        match self.lanes.get(usize::from(pid)) {
            Some(lane) => !is_busy(*lane, self.placed.len()),
            None => true,
        }
    }

    /// Goes on with a packet of a PID on which something is to come, or tells the rule that it breaks and changes nothing. It takes no
    /// memory.
    pub(crate) fn go_on(&mut self, pid: u16, start: bool, payload: &[u8]) -> Option<Rule>
        requires size { length payload.now ≡ 184 }
        requires some { is_nothing (to_come_on self.old pid) ≡ false }
        ensures moved { HasMoved (told (to_come_on self.old pid) (record { start = start; payload = payload.now })) pid self.old self.new result }
        ensures kept { IfSome result (λ _. self.new ≡ self.old) }
    {
        let index = usize::from(pid);
        let lane = self.lanes[index];
        match moved(&self.bytes, &self.placed, &self.links, lane, start, payload) {
            Ok(lane) => {
                let places = self.placed.len();
                self.busy = busy_behind(self.busy, is_busy(lane, places));
                self.lanes[index] = lane;
                None
            }
            Err(rule) => Some(rule),
        }
    }
}

// How many lanes are busy behind a packet of one of them, which may still be.
fn busy_behind(busy: usize, still: bool) -> usize
    requires { 0 < busy }
    ensures { result + 1 ≡ busy + cond still 1 0 }
{
    if still { busy } else { busy - 1 }
}
