// The auditor.
ghost use Rattle.std.specs.Prelude.{◌≡◌, ◌%◌, ◌*◌, ◌<◌, ◌≤◌, ◌↔◌, ◌++◌, [], ◌∷◌, List, ℕ, IsTrue, IsNone, IfNone, IfSome, OnOk, OnErr};
ghost use Rattle.section_codec.specs.SubTables.{AreFit};
ghost use Rattle.version_book.specs.Airings.{AiredTables};
ghost use Rattle.version_book.specs.Book.{aired};
ghost use Rattle.air_audit.specs.Audits.{AreAnAir, BeginAnAir};
ghost use Rattle.air_audit.specs.Checking.{StandsFor, IsAtEnd, rule_at};
ghost use Rattle.air_audit.specs.Passing.{past_nulls};
ghost use Rattle.air_model.specs.Air.{CanBeTold};

use crate::header::{has_counter, has_shape, is_null, is_start, pid_of};
use crate::progress::Progress;
use air_model::Rule;
use guide_model::Offsets;
use section_codec::Tables;
use si_time::Moment;
use std::alloc::{AllocError, Global};
use std::marker::Model;
use ts_packets::Counters;
use version_book::VersionBook;

/// An auditor of packets. It stands for an airing list and the packets that it accepted, which are
/// a prefix of an air of that list without null packets: the cycles of all airings but the last,
/// and the last one as far as it has come. It keeps its allocator.
#[derive(Drop)]
pub struct Checker {
    alloc: Global,
    book: VersionBook,
    counters: Counters,
    progress: Progress,
    quota: u32,
    offsets: Offsets,
}

impl Model for Checker {
    ghost use Rattle.air_model.specs.Air.{CanBeTold};
    ghost use Rattle.air_audit.specs.Checking.{Checking};

    ghost Value = { Checking };

    ghost view = { λ c. record { book = c.book; counters = c.counters; on_pids = c.progress; form = record { quota = c.quota; offsets = c.offsets } } };

    ghost invariant = { λ c. CanBeTold c.offsets };
}

impl Checker {
    /// An auditor of the empty airing list, which is at an end. The quota, 1 to 10,000, is that of
    /// the cycles, as a player's (`air_model`). It takes no memory.
    pub fn open(alloc: Global, quota: u32, offsets: Offsets) -> Checker
        requires some { 1 ≤ quota }
        requires most { quota ≤ 10000 }
        requires offsets { CanBeTold offsets }
        ensures stands { StandsFor [] [] result }
        ensures at_end { IsAtEnd result }
        ensures form { result.form ≡ record { quota = quota; offsets = offsets } }
    {
        Checker {
            alloc,
            book: VersionBook::open(alloc),
            counters: Counters::open(),
            progress: Progress::ended(alloc),
            quota,
            offsets,
        }
    }

    /// Adds an airing: these sub-tables, at the moment of the swap, in a cycle of the auditor's
    /// form. It needs an auditor at an end, and sub-tables and a moment with which a player swaps:
    /// keys that differ, in the order of their tiers, PIDs below 8,191, each with at least one
    /// section, ascending numbers and bodies that fit a section in the long form, and none with the
    /// table_id 0xFF, which is fill; and a moment whose day has 16 bits. All memory is taken first:
    /// where it is wanting, the auditor is unchanged.
    pub fn swap(&mut self, tables: Tables, moment: Moment) -> Result<(), AllocError>
        requires at_end { IsAtEnd self.old }
        requires fit { AreFit tables.list }
        requires moment { moment.0 < 65536 * 86400 }
        ensures swapped { (airings : List AiredTables) (accepted : List (List ℕ)) → StandsFor airings accepted self.old
            → OnOk result (StandsFor (airings ++ aired tables.list moment.0 self.old.form ∷ []) accepted self.new) }
        ensures form { self.new.form ≡ self.old.form }
        ensures memory { OnErr result (self.new ≡ self.old) }
    {
        let quota = self.quota;
        let next = Progress::begin(
            self.alloc,
            &mut self.book,
            &tables,
            quota,
            self.offsets.as_slice(),
            moment,
        )?;
        self.progress = next;
        Ok(())
    }

    /// Whether the packets accepted are an air of the airing list: nothing of its cycle is to come.
    pub fn at_end(&self) -> bool
        ensures end { IsTrue result ↔ IsAtEnd self.now }
        ensures air { (airings : List AiredTables) (accepted : List (List ℕ)) → StandsFor airings accepted self.now
            → IsTrue result ↔ AreAnAir airings accepted }
    {
        self.progress.is_ended()
    }

    /// Checks a packet. None comes exactly where the packets accepted with it are a prefix of an
    /// air of the airing list without null packets; it is then accepted. Otherwise nothing changes,
    /// and the answer is the first rule that the packet breaks. It takes no memory.
    pub fn check(&mut self, packet: &[u8; 188]) -> Option<Rule>
        ensures accepted { (airings : List AiredTables) (accepted : List (List ℕ)) → StandsFor airings accepted self.old
            → IfNone result (StandsFor airings (accepted ++ packet.now ∷ []) self.new) }
        ensures exactly { (airings : List AiredTables) (accepted : List (List ℕ)) → StandsFor airings accepted self.old
            → IsNone result ↔ BeginAnAir airings (accepted ++ packet.now ∷ []) }
        ensures rule { (airings : List AiredTables) (accepted : List (List ℕ)) → StandsFor airings accepted self.old
            → IfSome result (λ rule. rule ≡ rule_at accepted self.old packet.now) }
        ensures kept { IfSome result (λ _. self.new ≡ self.old) }
        ensures form { self.new.form ≡ self.old.form }
    {
        if !has_shape(packet) {
            return Some(Rule::Shape);
        }
        let pid = pid_of(packet);
        if self.progress.is_nothing_on(pid) {
            return Some(Rule::Pid);
        }
        if !has_counter(packet, self.counters.next(pid)) {
            return Some(Rule::Counter);
        }
        let (_, payload) = packet.split_at(4);
        if let Some(rule) = self.progress.go_on(pid, is_start(packet), payload) {
            return Some(rule);
        }
        self.counters.count(packet);
        None
    }

    /// Checks a packet of a recording in which null packets may stand anywhere, and passes over it
    /// where it is one (`is_null`): then nothing changes. None comes exactly where the packets that
    /// are no null packets are a prefix of such an air. Otherwise it is as `check`.
    pub fn check_past_nulls(&mut self, packet: &[u8; 188]) -> Option<Rule>
        ensures accepted { (airings : List AiredTables) (recorded : List (List ℕ)) → StandsFor airings (past_nulls recorded) self.old
            → IfNone result (StandsFor airings (past_nulls (recorded ++ packet.now ∷ [])) self.new) }
        ensures exactly { (airings : List AiredTables) (recorded : List (List ℕ)) → StandsFor airings (past_nulls recorded) self.old
            → IsNone result ↔ BeginAnAir airings (past_nulls (recorded ++ packet.now ∷ [])) }
        ensures rule { (airings : List AiredTables) (recorded : List (List ℕ)) → StandsFor airings (past_nulls recorded) self.old
            → IfSome result (λ rule. rule ≡ rule_at (past_nulls recorded) self.old packet.now) }
        ensures kept { IfSome result (λ _. self.new ≡ self.old) }
        ensures form { self.new.form ≡ self.old.form }
    {
        if is_null(packet) {
            return None;
        }
        self.check(packet)
    }
}
