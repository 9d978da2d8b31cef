// What is heard of packets, from one on.
ghost use Rattle.std.specs.Prelude.{◌≡◌, ◌++◌, ◌∷◌, [], List, ℕ, length, drop, false, true, slice_index, OnOk, OnErr};
ghost use Rattle.guide_receiver.specs.Heard.{ReceiverStandsFor};
ghost use Rattle.guide_receiver.specs.Dones.{dones_by};
ghost use Rattle.air_monitor.specs.Heard.{AppendsFrontOf, AreInSync, Hears, HearsBy, lines_at};

use crate::done_line::{DoneLines, push_lines};
use guide_receiver::{HearStop, Receiver};
use std::alloc::{AllocError, Global};
use std::marker::Model;

// Hears packets from the one with number `join` on, and keeps the completions. Where memory was wanting it is deaf.
#[derive(Drop)]
pub(crate) struct Listener {
    pub(crate) receiver: Receiver,
    pub(crate) dones: DoneLines,
    join: u64,
    number: u64,
    pub(crate) wanting: bool,
}

impl Model for Listener {
    ghost use Rattle.air_monitor.specs.Heard.{Listening};

    ghost Value = { Listening };

    ghost view = { λ l. record {
      receiver = l.receiver;
      dones = l.dones;
      join = l.join;
      number = l.number;
      wanting = l.wanting;
    } };
}

impl Listener {
    pub(crate) fn open(alloc: Global, join: u64) -> Listener
        ensures hears { Hears [] result }
        ensures join { result.join ≡ join }
    {
        Listener {
            receiver: Receiver::open(alloc),
            dones: DoneLines::new(alloc),
            join,
            number: 0,
            wanting: false,
        }
    }

    // One that hears nothing.
    pub(crate) fn deaf(alloc: Global) -> Listener
        ensures { result.wanting ≡ true }
    {
        Listener {
            receiver: Receiver::open(alloc),
            dones: DoneLines::new(alloc),
            join: 0,
            number: 0,
            wanting: true,
        }
    }

    // One packet more. The number stays below 2^64: the last that it could have counts as want of memory.
    pub(crate) fn hear(&mut self, packet: &[u8; 188])
        ensures hears { (past : List (List ℕ)) → Hears past self.old → Hears (past ++ packet.now ∷ []) self.new }
        ensures join { self.new.join ≡ self.old.join }
    {
        if self.wanting {
            return;
        }
        if self.number == u64::MAX {
            self.wanting = true;
            return;
        }
        match hear_from(
            &mut self.receiver,
            &mut self.dones,
            self.join,
            self.number,
            packet,
        ) {
            Ok(()) => self.number += 1,
            Err(_) => self.wanting = true,
        }
    }
}

// Hears the packet with this number, if it is not before `join`.
fn hear_from(
    receiver: &mut Receiver,
    dones: &mut DoneLines,
    join: u64,
    number: u64,
    packet: &[u8; 188],
) -> Result<(), AllocError>
    ensures ok { (past : List (List ℕ)) → number ≡ length past
        → HearsBy false join (drop join past) receiver.old dones.old
        → AreInSync (drop join (past ++ packet.now ∷ []))
        → OnOk result (HearsBy false join (drop join (past ++ packet.now ∷ [])) receiver.new dones.new) }
    ensures memory { (past : List (List ℕ)) → number ≡ length past
        → HearsBy false join (drop join past) receiver.old dones.old
        → OnErr result (HearsBy true join (drop join (past ++ packet.now ∷ [])) receiver.new dones.new) }
{
    if number < join {
        return Ok(());
    }
    hear_at(receiver, dones, number, packet)
}

// Hears the packet with this number. A key too many counts as want of memory.
fn hear_at(
    receiver: &mut Receiver,
    dones: &mut DoneLines,
    number: u64,
    packet: &[u8; 188],
) -> Result<(), AllocError>
    ensures stands { (past : List (List ℕ)) → ReceiverStandsFor past receiver.old → slice_index packet.now 0 ≡ 0x47
        → OnOk result (ReceiverStandsFor (past ++ packet.now ∷ []) receiver.new) }
    ensures shown { (past : List (List ℕ)) → ReceiverStandsFor past receiver.old → slice_index packet.now 0 ≡ 0x47
        → OnOk result (dones.new ≡ dones.old ++ lines_at number (dones_by past packet.now)) }
    ensures memory { (past : List (List ℕ)) → ReceiverStandsFor past receiver.old
        → OnErr result (AppendsFrontOf dones.old dones.new (lines_at number (dones_by past packet.now))) }
{
    match receiver.hear(packet) {
        Ok(shown) => push_lines(dones, number, shown.as_slice()),
        Err(HearStop::Sync) => Ok(()),
        Err(HearStop::TooMany | HearStop::Memory) => Err(AllocError),
    }
}
