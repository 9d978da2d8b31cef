// What is kept of a PID, and what a load of the PID gives.
ghost use Rattle.std.specs.Prelude.{◌≡◌, ◌<◌, ◌==◌, ◌+◌, ◌%◌, ◌&&◌, length, drop, map, Some, bytes_eq, IfOk, OnOk, OnErr};
ghost use Rattle.ts_packets.specs.Counting.{Load};
ghost use Rattle.ts_demux.specs.Arrivals.{Arrival, Arrival.Came, load_in};
ghost use Rattle.ts_demux.specs.Sections.{on_pid};
ghost use Rattle.ts_demux.specs.Keeping.{nothing};
ghost use Rattle.ts_demux.specs.Breaks.{follows_by};
ghost use Rattle.ts_demux.specs.Steps.{kept_after, given_after, is_again_at, is_next_at};

use crate::joining::take_payload;
use crate::section::RawSections;
use si_base::{Bytes, Items};
use std::alloc::{AllocError, Global};
use std::marker::Model;

// What the shape of a packet tells of its load.
#[derive(Clone, Copy)]
pub(crate) struct LoadShape {
    pub(crate) pid: u16,
    pub(crate) start: bool,
    pub(crate) counter: u8,
    pub(crate) at: u8,
}

// A load's counter, and the place of the payload's first byte in its packet.
#[derive(Clone, Copy)]
pub(crate) struct LastLoad {
    counter: u8,
    at: u8,
    ghost in_packet: { at < 188 },
}

// What is kept of a PID: its last load with that load's packet, which is written in place, and the first bytes of the section that is
// open. Without a last load the packet is not looked at.
#[derive(Drop)]
pub(crate) struct PidSlot {
    last: Option<LastLoad>,
    packet: [u8; 188],
    section: Option<Bytes>,
}

impl Model for PidSlot {
    ghost use Rattle.std.specs.Prelude.{option_map, drop};
    ghost use Rattle.ts_demux.specs.Keeping.{PidState};
    ghost use Rattle.ts_demux.specs.Steps.{IsOpen};

    ghost Value = { PidState };

    ghost view = { λ s. record { last = option_map (λ l. record { counter = l.counter; payload = drop l.at s.packet }) s.last; section = s.section } };

    ghost invariant = { λ s. IsOpen s.section };
}

impl PidSlot {
    // Nothing is kept.
    pub(crate) fn empty() -> PidSlot
        ensures { result ≡ nothing }
    {
        PidSlot {
            last: None,
            packet: [0; 188],
            section: None,
        }
    }

    // Hears one load more of the PID: the sections that it ends. Want of memory changes nothing.
    pub(crate) fn hear(
        &mut self,
        alloc: Global,
        packet: &[u8; 188],
        load: LoadShape,
    ) -> Result<RawSections, AllocError>
        requires { load.at < 188 }
        ensures given { IfOk result (λ sections. sections ≡ map (on_pid load.pid) (given_after self.old (Came (load_in load.start load.counter load.at packet.now)))) }
        ensures kept { OnOk result (self.new ≡ kept_after self.old (Came (load_in load.start load.counter load.at packet.now))) }
        ensures memory { OnErr result (self.new ≡ self.old) }
    {
        let (_, payload) = packet.split_at(usize::from(load.at));
        if self.is_again(load.counter, payload) {
            return Ok(Items::new(alloc));
        }
        let follows = self.is_next(load.counter);
        let section = &mut self.section;
        let sections = take_payload(alloc, load.pid, section, follows, load.start, payload)?;
        self.packet = *packet;
        self.last = Some(LastLoad {
            counter: load.counter,
            at: load.at,
        });
        Ok(sections)
    }

    // Whether a load goes on with the last one.
    pub(crate) fn follows(&self, packet: &[u8; 188], load: LoadShape) -> Option<bool>
        requires { load.at < 188 }
        ensures { result ≡ follows_by self.now.last
            (Some (Came (load_in load.start load.counter load.at packet.now))) }
    {
        let (_, payload) = packet.split_at(usize::from(load.at));
        match &self.last {
            Some(_) => Some(self.is_next(load.counter) || self.is_again(load.counter, payload)),
            None => None,
        }
    }

    // Whether the last load has this counter and payload.
    fn is_again(&self, counter: u8, payload: &[u8]) -> bool
        ensures { result ≡ is_again_at self.now.last counter payload.now }
    {
        match &self.last {
            Some(last) => {
                let (_, kept) = self.packet.split_at(usize::from(last.at));
                last.counter == counter && kept == payload
            }
            None => false,
        }
    }

    // Whether this counter follows that of the last load.
    fn is_next(&self, counter: u8) -> bool
        ensures { result ≡ is_next_at self.now.last counter }
    {
        match &self.last {
            Some(last) => counter == last.counter.wrapping_add(1) % 16,
            None => false,
        }
    }
}
