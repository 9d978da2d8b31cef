// A place for each PID.
ghost use Rattle.std.specs.Prelude.{◌≡◌, ◌<◌, ◌≤◌, ◌==◌, [], ℕ, length, map, Some, if◌then◌else◌, IfOk, OnOk, OnErr};
ghost use Rattle.ts_demux.specs.Arrivals.{Arrival, Arrival.Came, load_in};
ghost use Rattle.ts_demux.specs.Sections.{on_pid};
ghost use Rattle.ts_demux.specs.Keeping.{nothing, kept_on};
ghost use Rattle.ts_demux.specs.Steps.{kept_after, given_after};
ghost use Rattle.ts_demux.specs.Breaks.{follows_by};

use crate::section::RawSections;
use crate::slot::{LoadShape, PidSlot};
use std::alloc::{AllocError, Global};
use std::marker::Model;

// A place for each PID, in the order of the PIDs; none at all before the first load. A place is filled at the first load
// of its PID.
#[derive(Drop)]
pub(crate) struct Places {
    slots: Vec<Option<Box<PidSlot>>>,
}

impl Model for Places {
    ghost use Rattle.std.specs.Prelude.{List, Option, option_map, map};
    ghost use Rattle.ts_demux.specs.Keeping.{PidState};

    ghost Value = { List (Option PidState) };

    ghost view = { λ p. map (option_map (λ slot. slot.value)) p.slots.items };
}

impl Places {
    // No place. It takes no memory.
    pub(crate) fn none(alloc: Global) -> Places
        ensures { result ≡ [] }
    {
        Places {
            slots: Vec::new(alloc),
        }
    }

    // Forgets what is kept of a PID. It takes no memory.
    pub(crate) fn forget(&mut self, pid: u16)
        ensures { (q : ℕ) → kept_on q self.new ≡ (if pid == q then nothing else kept_on q self.old) }
    {
        let place = usize::from(pid);
        if place < self.slots.len() {
            drop(self.slots[place].take());
        }
    }

    // Hears a load of a PID. Want of memory leaves what is kept.
    pub(crate) fn hear(
        &mut self,
        alloc: Global,
        packet: &[u8; 188],
        load: LoadShape,
    ) -> Result<RawSections, AllocError>
        requires pid { load.pid < 8192 }
        requires payload { load.at < 188 }
        ensures given { IfOk result (λ sections. sections ≡ map (on_pid load.pid) (given_after (kept_on load.pid self.old) (Came (load_in load.start load.counter load.at packet.now)))) }
        ensures kept { OnOk result ((q : ℕ) → kept_on q self.new ≡ (if load.pid == q then kept_after (kept_on load.pid self.old) (Came (load_in load.start load.counter load.at packet.now)) else kept_on q self.old)) }
        ensures memory { OnErr result ((q : ℕ) → kept_on q self.new ≡ kept_on q self.old) }
    {
        self.make_places()?;
        let mut slot = self.take_slot(alloc, load.pid)?;
        let heard = slot.hear(alloc, packet, load);
        self.put_slot(load.pid, slot);
        heard
    }

    // Whether a load goes on with the last load of its PID. It takes no memory.
    pub(crate) fn follows(&self, packet: &[u8; 188], load: LoadShape) -> Option<bool>
        requires { load.at < 188 }
        ensures { result ≡ follows_by (kept_on load.pid self.now).last
            (Some (Came (load_in load.start load.counter load.at packet.now))) }
    {
        let place = usize::from(load.pid);
        if place >= self.slots.len() {
            return None;
        }
        match &self.slots[place] {
            Some(slot) => slot.follows(packet, load),
            None => None,
        }
    }

    // Takes out what is kept of a PID. Want of memory leaves what is kept.
    fn take_slot(&mut self, alloc: Global, pid: u16) -> Result<Box<PidSlot>, AllocError>
        requires place { pid < length self.old }
        ensures slot { IfOk result (λ slot. slot.value ≡ kept_on pid self.old) }
        ensures places { length self.new ≡ length self.old }
        ensures taken { OnOk result ((q : ℕ) → kept_on q self.new ≡ (if pid == q then nothing else kept_on q self.old)) }
        ensures memory { OnErr result ((q : ℕ) → kept_on q self.new ≡ kept_on q self.old) }
    {
        match self.slots[usize::from(pid)].take() {
            Some(slot) => Ok(slot),
            None => Ok(Box::new(alloc, PidSlot::empty())?),
        }
    }

    // Puts in what is to be kept of a PID.
    fn put_slot(&mut self, pid: u16, slot: Box<PidSlot>)
        requires place { pid < length self.old }
        ensures { (q : ℕ) → kept_on q self.new ≡ (if pid == q then slot.value else kept_on q self.old) }
    {
        self.slots[usize::from(pid)] = Some(slot);
    }

    // Makes the places, where there are none.
    fn make_places(&mut self) -> Result<(), AllocError>
        ensures made { OnOk result (8192 ≤ length self.new) }
        ensures kept { (q : ℕ) → kept_on q self.new ≡ kept_on q self.old }
    {
        'places: while self.slots.len() < 8192 {
            self.slots.push(None)?;
        }
        Ok(())
    }
}
