// The monitor.
ghost use Rattle.std.specs.Prelude.{◌≡◌, ℕ, List, [], false, true, IfOk};
ghost use Rattle.guide_receiver.specs.Guides.{guide_of};
ghost use Rattle.air_monitor.specs.Heard.{HasTaken, HearsBy, WatchedOn};
ghost use Rattle.air_monitor.specs.Watches.{watched_at_once, watched_later};

use crate::done_line::DoneLines;
use crate::listen::listen;
use crate::listener::Listener;
use crate::part::Part;
use guide_receiver::{Heard, Receiver};
use si_causes::{Failed, Sink};
use std::alloc::{AllocError, Global};
use std::marker::Model;

/// A sink that passes on what it is given to an air, and hears what the air took: the whole packets, from one on.
///
/// It takes memory for what the receiver keeps and for the completions alone. Where memory is wanting it hears no further
/// packet; that is no fault of the air. A key more than a receiver keeps counts as want of memory. A whole packet that does not
/// begin with the sync_byte, 0x47 (ISO/IEC 13818-1, 2.4.3.3), is passed over.
#[derive(Drop)]
pub struct Monitor<A: Sink> {
    air: A,
    part: Part,
    listener: Listener,
}

impl<A: Sink> Model for Monitor<A> {
    ghost use Rattle.std.specs.Prelude.{◌<◌, length};
    ghost use Rattle.air_monitor.specs.Heard.{Watching};

    ghost Value = { Watching A };

    ghost view = { λ m. record { air = m.air; part = m.part; listener = m.listener } };

    ghost invariant = { λ m. length m.part < 188 };
}

/// What a monitor heard: the completions, the receiver, and whether memory was wanting.
#[derive(Drop)]
pub struct MonitorLog {
    pub dones: DoneLines,
    pub receiver: Receiver,
    pub wanting: bool,
}

impl MonitorLog {
    /// What a receiver has to show of the packets that were heard, where memory was not wanting: the needs that are not met, or else the
    /// whole screen (EN 300 468, 5.2).
    pub fn guide(&self) -> Result<Heard, AllocError>
        ensures { (join : ℕ) (packets : List (List ℕ)) → HearsBy false join packets self.now.receiver self.now.dones
            → IfOk result (λ heard. heard ≡ guide_of packets) }
    {
        self.receiver.guide()
    }
}

impl<A: Sink> Monitor<A> {
    /// A monitor that has passed on nothing, and is to hear the packets from number `join` on. It takes no memory.
    pub fn open(alloc: Global, air: A, join: u64) -> Monitor<A>
        ensures taken { HasTaken [] result.part result.listener }
        ensures air { result.air ≡ air }
        ensures join { result.listener.join ≡ join }
    {
        Monitor {
            air,
            part: Part::new(),
            listener: Listener::open(alloc, join),
        }
    }

    /// Takes what was heard out of it; it hears no further packet. It takes no memory.
    pub fn take_log(&mut self) -> MonitorLog
        ensures dones { result.dones ≡ self.old.listener.dones }
        ensures receiver { result.receiver ≡ self.old.listener.receiver }
        ensures wanting { result.wanting ≡ self.old.listener.wanting }
        ensures air { self.new.air ≡ self.old.air }
        ensures deaf { self.new.listener.wanting ≡ true }
    {
        let deaf = Listener::deaf(self.listener.dones.allocator());
        let Listener {
            dones,
            receiver,
            wanting,
            ..
        } = std::mem::replace(&mut self.listener, deaf);
        MonitorLog {
            dones,
            receiver,
            wanting,
        }
    }

    /// Gives back the air. It takes no memory.
    pub fn close(self) -> A
        ensures { result ≡ self.air }
    {
        self.air
    }
}

impl<A: Sink> Sink for Monitor<A> {
    ghost written = { λ m. A.written m.air };

    ghost faults = { λ m. A.faults m.air };

    ghost same = { λ m n. WatchedOn A.written A.same m n };

    ghost same_at_once = { λ m. watched_at_once A.written A.same A.same_at_once m };

    ghost same_later = { λ m n o p q. watched_later A.written A.same A.same_later m n o p q };

    fn write(&mut self, from: &[u8]) -> Result<usize, Failed> {
        match self.air.write(from) {
            Ok(count) => {
                let (taken, _) = from.split_at(count);
                listen(&mut self.listener, &mut self.part, taken);
                Ok(count)
            }
            Err(failed) => Err(failed),
        }
    }
}
