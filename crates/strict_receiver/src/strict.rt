// The strict receiver.
ghost use Rattle.std.specs.Prelude.{◌≡◌, ◌≢◌, ◌↔◌, ◌<◌, ◌++◌, ◌∷◌, [], List, ℕ, Some, None, Ok, Err, IfOk, OnOk, option_map, if◌then◌else◌, slice_index};
ghost use Rattle.ts_packets.specs.Bytes.{pid_in, shape_in};
ghost use Rattle.ts_packets.specs.Counting.{Load};
ghost use Rattle.ts_demux.specs.declared.section.RawSection.{RawSection};
ghost use Rattle.ts_demux.specs.Arrivals.{Arrival.Came, arrival_on};
ghost use Rattle.ts_demux.specs.Breaks.{is_lost};
ghost use Rattle.sub_collect.specs.KeyCounts.{HaveTooManyKeys};
ghost use Rattle.sub_collect.specs.Marks.{Taken, Taken.Forgot};
ghost use Rattle.guide_receiver.specs.Heard.{ReceiverStandsAfter};
ghost use Rattle.guide_receiver.specs.declared.receiver.HearStop.{HearStop};
ghost use Rattle.strict_receiver.specs.Strict.{lost_by};
ghost use Rattle.strict_receiver.specs.Earlier.{counted_after, strict_dones_after, strict_guide_after};
ghost use Rattle.strict_receiver.specs.Standing.{StrictStandsFor, StrictStandsAfter};

use crate::gaps::Gaps;
use guide_receiver::{Dones, HearStop, Heard, Receiver};
use std::alloc::{AllocError, Global};
use std::marker::Model;
use ts_packets::{Shape, read_packet};

/// Packets of a PID were lost.
#[derive(Clone, Copy, PartialEq, Eq)]
pub struct Lost {
    pub pid: u16,
}

/// What one packet gives: whether packets of its PID were lost before it, and the sub-tables that it
/// completes, in order.
#[derive(Drop)]
pub struct StrictHeard {
    pub lost: Option<Lost>,
    pub dones: Dones,
}

/// A receiver that forgets the sections of a PID at each break. It stands for the packets that it heard since
/// it last started afresh, and for the recordings that it heard earlier. It keeps what a `Receiver` keeps, and
/// of each PID whether a gap came last.
#[derive(Drop)]
pub struct Strict {
    receiver: Receiver,
    gaps: Gaps,
}

impl Model for Strict {
    ghost use Rattle.strict_receiver.specs.Standing.{StrictHearing};

    ghost Value = { StrictHearing };

    ghost view = { λ s. record { receiver = s.receiver; gaps = s.gaps } };
}

impl Strict {
    /// A strict receiver that has heard nothing. It takes no memory.
    pub fn open(alloc: Global) -> Strict
        ensures { StrictStandsFor [] result }
    {
        Strict {
            receiver: Receiver::open(alloc),
            gaps: Gaps::none(),
        }
    }

    /// Hears one packet more: the PID, exactly where packets of it were lost, and the completions that the
    /// packet shows. A break is a gap; the first load of a PID after a gap; or a load that neither follows
    /// nor repeats the last load of its PID (ISO/IEC 13818-1, 2.4.3.3). At a break the sections of the PID
    /// are forgotten before the packet is heard. The stops are those of `Receiver::hear`: `Sync` leaves all
    /// as it was; after `TooMany` and `Memory` the receiver stands for no packets.
    pub fn hear(&mut self, packet: &[u8; 188]) -> Result<StrictHeard, HearStop>
        ensures sync { result ≡ Err HearStop.Sync ↔ (slice_index packet.now 0 ≢ 0x47) }
        ensures unchanged { result ≡ Err HearStop.Sync → self.new ≡ self.old }
        ensures lost { (earlier : List (List (List ℕ))) (past : List (List ℕ))
            → StrictStandsAfter earlier past self.old
            → IfOk result (λ heard. option_map (λ l. l.pid) heard.lost ≡ lost_by past packet.now) }
        ensures dones { (earlier : List (List (List ℕ))) (past : List (List ℕ))
            → StrictStandsAfter earlier past self.old
            → IfOk result (λ heard. heard.dones ≡ strict_dones_after earlier past packet.now) }
        ensures stands { (earlier : List (List (List ℕ))) (past : List (List ℕ))
            → StrictStandsAfter earlier past self.old
            → OnOk result (StrictStandsAfter earlier (past ++ packet.now ∷ []) self.new) }
        ensures too_many { (earlier : List (List (List ℕ))) (past : List (List ℕ))
            → StrictStandsAfter earlier past self.old → result ≡ Err HearStop.TooMany
            → HaveTooManyKeys (counted_after earlier (past ++ packet.now ∷ [])) }
    {
        let Ok(shape) = read_packet(packet) else {
            return Err(HearStop::Sync);
        };
        let pid = pid_of(packet);
        let breaks = self.is_lost(packet, &shape);
        forget_where(&mut self.receiver, pid, breaks);
        match self.receiver.hear(packet) {
            Ok(dones) => {
                self.gaps.hear(packet, &shape);
                Ok(StrictHeard {
                    lost: lost_where(pid, breaks),
                    dones,
                })
            }
            Err(stop) => Err(stop),
        }
    }

    /// Starts afresh, as where a part of a recording could not be read: each PID is as before its first packet,
    /// and no key has a section (`Receiver::restart`). So what comes then is heard as a recording of its own,
    /// and the completions are kept. It takes no memory, and its time is that of all keys.
    pub fn restart(&mut self)
        ensures { (earlier : List (List (List ℕ))) (past : List (List ℕ))
            → StrictStandsAfter earlier past self.old
            → StrictStandsAfter (earlier ++ past ∷ []) [] self.new }
    {
        self.receiver.restart();
        self.gaps = Gaps::none();
    }

    /// What the receiver has to show of what it stands for: the needs that are not met, or else the whole
    /// screen. Its time is that of `Receiver::guide`.
    pub fn guide(&self) -> Result<Heard, AllocError>
        ensures { (earlier : List (List (List ℕ))) (past : List (List ℕ))
            → StrictStandsAfter earlier past self.now
            → IfOk result (λ heard. heard ≡ strict_guide_after earlier past) }
    {
        self.receiver.guide()
    }

    /// The receiver that hears the packets.
    pub fn receiver(&self) -> &Receiver
        ensures { result.now ≡ self.now.receiver }
    {
        &self.receiver
    }

    // Whether a packet is a break on its PID.
    fn is_lost(&self, packet: &[u8; 188], shape: &Shape) -> bool
        requires { shape_in packet.now ≡ Ok shape.now }
        ensures { (earlier : List (List (List ℕ))) (past : List (List ℕ))
            → StrictStandsAfter earlier past self.now → result ≡ is_lost past packet.now }
    {
        match *shape {
            Shape::Pass => false,
            Shape::Gap(_) => true,
            Shape::Load { .. } => self.load_breaks(packet, shape),
        }
    }

    // Whether a load is a break on its PID.
    fn load_breaks(&self, packet: &[u8; 188], shape: &Shape) -> bool
        requires { shape_in packet.now ≡ Ok shape.now }
        ensures { (earlier : List (List (List ℕ))) (past : List (List ℕ)) (l : Load)
            → StrictStandsAfter earlier past self.now
            → arrival_on (pid_in packet.now) packet.now ≡ Some (Came l)
            → result ≡ is_lost past packet.now }
    {
        let pid = pid_of(packet);
        match self.receiver.follows(packet, shape) {
            Some(goes_on) => !goes_on,
            None => self.gaps.is_last(pid),
        }
    }
}

// The PID of a packet, whatever its shape.
fn pid_of(packet: &[u8; 188]) -> u16
    ensures value { result ≡ pid_in packet.now }
    ensures small { result < 8192 }
{
    u16::from(packet[1] % 32) * 256 + u16::from(packet[2])
}

// Adds a mark of a PID, where packets of it were lost.
fn forget_where(receiver: &mut Receiver, pid: u16, lost: bool)
    ensures { (earlier : List RawSection) (packets : List (List ℕ)) (taken : List Taken)
        → ReceiverStandsAfter earlier packets taken receiver.old
        → ReceiverStandsAfter earlier packets
        (taken ++ (if lost then Forgot pid ∷ [] else [])) receiver.new }
{
    if lost {
        receiver.forget(pid);
    }
}

// The PID, where packets of it were lost.
fn lost_where(pid: u16, lost: bool) -> Option<Lost>
    ensures { option_map (λ l. l.pid) result ≡ (if lost then Some pid else None) }
{
    if lost { Some(Lost { pid }) } else { None }
}
