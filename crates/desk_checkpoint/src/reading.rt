// A checkpoint that is being read.
ghost use Rattle.std.specs.Prelude.{◌≡◌, ◌≤◌, ◌<◌, ◌^◌, ◌∷◌, ◌++◌, [], true, false, ◌&&◌, nat_le, IfOk, OnOk, Option, Some, None, option_copied};
ghost use Rattle.section_codec.specs.KeyOrder.{key_cmp};
ghost use Rattle.version_book.specs.declared.key_version.KeyVersion.{KeyVersion as AKeyVersion};
ghost use Rattle.mux_model.specs.Sound.{IsSound};
ghost use Rattle.air_model.specs.Air.{CanBeTold};
ghost use Rattle.journal_air.specs.Air.{mux_form};
ghost use Rattle.journal_model.specs.Steps.{IsStepWithin};
ghost use Rattle.desk_checkpoint.specs.Going.{is_taken};
ghost use Rattle.desk_checkpoint.specs.Parts.{IsFitPart};
ghost use Rattle.desk_checkpoint.specs.Checkpoints.{and_current, comes_behind, counted, is_nil, is_none, last_pid, published_by, steps_may_come, whole, with_counter, with_part, with_section, with_step, with_version};
ghost use Rattle.desk_checkpoint.specs.Answers.{Answers};
ghost use Rattle.desk_checkpoint.specs.Starts.{IsStart, StartsFrom};

use crate::head::Head;
use crate::part::Part;
use crate::start::Start;
use cycle_player::{Clock, CyclePlayer};
use desk_core::Desk;
use guide_model::Offsets;
use journal_model::{Outcome, Reply, Step};
use mux_model::Mux;
use section_codec::{Key, NumberedBodies, NumberedBody};
use std::alloc::{AllocError, Global};
use std::marker::Model;
use ts_packets::{PidCounter, PidCounters};
use version_book::{KeyVersion, KeyVersions};

/// What was read of a checkpoint, and what may come next. Contracts see it as `Checkpoint`.
#[derive(Drop)]
pub(crate) struct Reading {
    alloc: Global,
    count: u64,
    desk: Desk,
    // How many publications the desk has.
    published: u64,
    keys: KeyVersions,
    current: Option<KeyVersion>,
    number: u16,
    counters: PidCounters,
    pid: u16,
    clock: Clock,
}

impl Model for Reading {
    ghost use Rattle.desk_checkpoint.specs.Checkpoints.{Checkpoint};
    ghost use Rattle.desk_checkpoint.specs.Readings.{IsReading};

    ghost Value = { Checkpoint };

    ghost view = { λ r. record {
      count = r.count;
      desk = r.desk;
      keys = r.keys;
      current = r.current;
      number = r.number;
      counters = r.counters;
      pid = r.pid;
      clock = r.clock;
    } };

    ghost invariant = { λ r. IsReading (record {
      count = r.count;
      desk = r.desk;
      keys = r.keys;
      current = r.current;
      number = r.number;
      counters = r.counters;
      pid = r.pid;
      clock = r.clock;
    }) r.published };
}

// Whether a desk did what a checkpoint asked it.
fn is_taken(outcome: Outcome) -> bool
    ensures { result ≡ is_taken outcome }
{
    match outcome {
        Outcome::Edited(reply) => matches!(reply, Reply::Done),
        Outcome::Ticked | Outcome::Published(_) => true,
        Outcome::Late(_) | Outcome::Swapped(..) => false,
    }
}

// Whether a key comes behind the one whose sections were read last.
fn comes_behind(key: Key, last: Option<&KeyVersion>) -> bool
    ensures { result ≡ comes_behind key (option_copied last.entry) }
{
    match last {
        None => true,
        Some(last) => last.key < key,
    }
}

// How many publications a desk has behind this outcome.
fn published_by(published: u64, outcome: Outcome) -> u64
    ensures { result ≡ published_by published outcome }
{
    match outcome {
        Outcome::Published(number) => number,
        _ => published,
    }
}

// The last PID that may have a counter: that of null packets only at a bit rate.
fn last_pid(rate: Option<u32>) -> u16
    ensures { result ≡ last_pid rate }
{
    match rate {
        None => 8190,
        Some(_) => 8191,
    }
}

// A key with one section more.
fn and_section(mut key: KeyVersion, section: NumberedBody) -> Result<KeyVersion, AllocError>
    ensures { IfOk result (λ more. more ≡ record key { sections = key.sections ++ section ∷ [] }) }
{
    key.sections.push(section)?;
    Ok(key)
}

impl Reading {
    /// Whether a step may come: neither a key nor a counter did.
    pub(crate) fn steps_may_come(&self) -> bool
        ensures { result ≡ steps_may_come self.now }
    {
        self.current.is_none() && self.counters.is_empty()
    }

    /// Nothing was read of the checkpoint but what stands before its parts.
    pub(crate) fn open(alloc: Global, mux: Mux, head: Head) -> Result<Reading, AllocError>
        requires sound { IsSound mux }
        requires most { head.count < 10 ^ 18 }
        ensures { IfOk result (λ reading. reading ≡ counted mux head.count head.clock) }
    {
        let desk = Desk::open(alloc, mux)?;
        Ok(Reading {
            alloc,
            count: head.count,
            desk,
            published: 0,
            keys: KeyVersions::new(alloc),
            current: None,
            number: 0,
            counters: PidCounters::new(alloc),
            pid: 0,
            clock: head.clock,
        })
    }

    // Puts the key whose sections were read behind the others, where all that was read is whole.
    fn close(&mut self) -> Result<bool, AllocError>
        ensures answers { IfOk result (λ yes. Answers yes (whole self.old) self.new) }
        ensures mux { self.new.desk.mux ≡ self.old.desk.mux }
    {
        if self.published != u64::from(self.count > 0) {
            return Ok(false);
        }
        let Some(current) = self.current.take() else {
            return Ok(true);
        };
        if current.sections.is_empty() {
            return Ok(false);
        }
        self.keys.push(current)?;
        Ok(true)
    }

    // Whether only steps were read so far.
    fn takes_steps(&self) -> bool
        ensures { result ≡ (is_none self.now.current && is_nil self.now.counters) }
    {
        self.current.is_none() && self.counters.is_empty()
    }

    fn step(&mut self, step: Step) -> Result<bool, AllocError>
        requires { IsStepWithin step }
        ensures answers { IfOk result (λ yes. Answers yes (with_step self.old step) self.new) }
        ensures mux { self.new.desk.mux ≡ self.old.desk.mux }
    {
        if !self.takes_steps() {
            return Ok(false);
        }
        let outcome = self.desk.step(0, step)?;
        self.published = published_by(self.published, outcome);
        Ok(is_taken(outcome))
    }

    fn version(&mut self, key: Key, version: u8) -> Result<bool, AllocError>
        requires { version < 32 }
        ensures answers { IfOk result (λ yes. Answers yes (with_version self.old key version) self.new) }
        ensures mux { self.new.desk.mux ≡ self.old.desk.mux }
    {
        if !self.counters.is_empty()
            || !comes_behind(key, self.current.as_ref())
            || !self.close()?
        {
            return Ok(false);
        }
        self.current = Some(KeyVersion {
            key,
            version,
            sections: NumberedBodies::new(self.alloc),
        });
        self.number = 0;
        Ok(true)
    }

    fn section(&mut self, section: NumberedBody) -> Result<bool, AllocError>
        ensures answers { IfOk result (λ yes. Answers yes (with_section self.old section) self.new) }
        ensures mux { self.new.desk.mux ≡ self.old.desk.mux }
    {
        let Some(current) = self.current.take() else {
            return Ok(false);
        };
        let number = u16::from(section.number);
        if number < self.number {
            return Ok(false);
        }
        self.number = number + 1;
        self.current = Some(and_section(current, section)?);
        Ok(true)
    }

    // Whether a PID may have the next counter.
    fn may_count(&self, pid: u16) -> bool
        ensures { result
            ≡ (nat_le self.now.pid pid && nat_le pid (last_pid self.now.desk.mux.rate)) }
    {
        self.pid <= pid && pid <= last_pid(self.desk.mux().rate)
    }

    fn counter(&mut self, counter: PidCounter) -> Result<bool, AllocError>
        requires { IsFitPart (Part.Counter counter) }
        ensures answers { IfOk result (λ yes. Answers yes (with_counter self.old counter) self.new) }
        ensures mux { self.new.desk.mux ≡ self.old.desk.mux }
    {
        if !self.may_count(counter.pid) || !self.close()? {
            return Ok(false);
        }
        self.counters.push(counter)?;
        self.pid = counter.pid + 1;
        Ok(true)
    }

    /// Takes one part more, where it may stand there.
    pub(crate) fn take(&mut self, part: Part) -> Result<bool, AllocError>
        requires { IsFitPart part }
        ensures answers { IfOk result (λ yes. Answers yes (with_part self.old part) self.new) }
        ensures mux { self.new.desk.mux ≡ self.old.desk.mux }
    {
        match part {
            Part::Step(step) => self.step(step),
            Part::Version(key, version) => self.version(key, version),
            Part::Section(section) => self.section(section),
            Part::Counter(counter) => self.counter(counter),
            Part::End => self.close(),
        }
    }

    /// What a head-end goes on from, with cycles of this quota and these offsets, at the bit rate
    /// of the multiplex where it has one.
    pub(crate) fn start(self, quota: u32, offsets: Offsets) -> Result<Start, AllocError>
        requires some { 1 ≤ quota }
        requires most { quota ≤ 10000 }
        requires offsets { CanBeTold offsets }
        ensures from { IfOk result (StartsFrom self) }
        ensures start { mux_form self.desk.mux ≡ record { quota = quota; offsets = offsets }
            → IfOk result (IsStart self.desk.mux) }
    {
        let player = CyclePlayer::resume(
            self.alloc,
            self.desk.mux().rate,
            quota,
            offsets,
            self.keys,
            self.counters.as_slice(),
            self.clock,
        )?;
        Ok(Start {
            desk: self.desk,
            shift: self.count.saturating_sub(1),
            player,
        })
    }
}
