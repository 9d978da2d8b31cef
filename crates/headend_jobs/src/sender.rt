// What sends: it swaps, posts what each swap puts on air, and sends its cycle. At a bit rate it
// ticks before each swap.
ghost use Rattle.std.specs.Prelude.{◌≡◌, ◌<◌, ◌^◌, false, OnOk, OnErr};
ghost use Rattle.cycle_player.specs.Making.{IsToldTick};
ghost use Rattle.desk_hall.specs.Turn.{Idle, KeepsNumbers};
ghost use Rattle.headend_jobs.specs.Live.{LastDid};
ghost use Rattle.headend_jobs.specs.Playing.{SwapPlayed};
ghost use Rattle.headend_jobs.specs.Posting.{HasPosted, KeepsBoard};
ghost use Rattle.headend_jobs.specs.Sends.{CanPlay, Played, Wrote};
ghost use Rattle.headend_jobs.specs.Ticking.{Ticked, tick_now};

use cycle_player::CyclePlayer;
use desk_hall::{Hall, HallPass};
use guide_board::BoardWriter;
use journal_air::{SendStop, send_cycle};
use mux_model::Mux;
use si_causes::{Gate, Place, Sink};
use si_time::Moment;
use std::alloc::{AllocError, Global};
use std::sync::Wait;

/// What sends: a multiplex, its player, the board on which each publication is posted before its
/// cycle, and the air. It is not `Drop`: end it by `close`.
pub struct Sender<A: Sink> {
    pub mux: Mux,
    pub player: CyclePlayer,
    pub board: BoardWriter,
    pub air: A,
}

/// So many swaps, each after the tick that the clock tells, where they have ticks.
#[derive(Drop)]
pub struct Swaps {
    pub count: u64,
    pub ticking: bool,
}

// What the player's clock tells, where its swaps have ticks.
fn tick_now(player: &CyclePlayer, ticking: bool) -> Option<Moment>
    ensures tick { result ≡ tick_now ticking player.now }
    ensures within { IsToldTick result }
{
    match ticking {
        true => player.time(),
        false => None,
    }
}

// The turn of a tick, where there is one.
fn tick_first<W: Wait>(
    rt: &W,
    hall: &Hall,
    pass: &mut HallPass,
    tick: Option<Moment>,
) -> Result<(), AllocError>
    requires turns { pass.old.turns ≡ hall.now.turns }
    requires within { IsToldTick tick }
    ensures made { OnOk result (Ticked tick pass.old pass.new) }
    ensures memory { OnErr result (Idle pass.old pass.new) }
    ensures keeps { KeepsNumbers pass.old pass.new }
{
    match tick {
        None => Ok(()),
        Some(at) => match hall.tick(rt, pass, at) {
            Ok(_) => Ok(()),
            Err(error) => Err(error),
        },
    }
}

impl<A: Sink> Sender<A> {
    /// Closes the board, and gives the air back. It takes no memory.
    pub fn close<W: Wait>(self, rt: &W) -> A
        ensures { result ≡ self.air }
    {
        let Sender {
            mux: _,
            player: _,
            board,
            air,
        } = self;
        board.close(rt);
        air
    }

    // Its tick, one swap, the post of what it puts on air, and its cycle.
    fn swap_and_send<W: Wait>(
        &mut self,
        rt: &W,
        alloc: Global,
        hall: &Hall,
        pass: &mut HallPass,
        ticking: bool,
    ) -> Result<(), SendStop>
        requires { CanPlay hall.now.turns pass.old self.old }
        ensures mux { self.new.mux ≡ self.old.mux }
        ensures played { SwapPlayed (tick_now ticking self.old.player) self.old.mux pass.old pass.new
            self.old.player self.new.player (A.written self.old.air) (A.written self.new.air) result }
        ensures posted { OnOk result (HasPosted self.old.mux pass.old pass.new self.old.board self.new.board) }
        ensures board { KeepsBoard self.old.board self.new.board }
        ensures air { Wrote A.faults A.same self.old.air self.new.air result }
    {
        tick_first(rt, hall, pass, tick_now(&self.player, ticking))?;
        let airing = match hall.swap(rt, pass) {
            Ok(airing) => airing,
            Err(_) => return Err(SendStop::Memory),
        };
        self.board.post(rt, airing.number, &airing.guide)?;
        send_cycle(alloc, &self.mux, &airing, &mut self.player, &mut self.air)
    }

    /// Makes these swaps, posts what each puts on air, and sends a whole cycle of it.
    pub(crate) fn play<W: Wait, G: Gate>(
        &mut self,
        rt: &W,
        alloc: Global,
        hall: &Hall,
        pass: &mut HallPass,
        plan: Swaps,
        gate: &G,
    ) -> Result<(), SendStop>
        requires ready { CanPlay hall.now.turns pass.old self.old }
        requires few { plan.count < 2 ^ 32 }
        ensures { Played A.written A.faults A.same plan pass.old pass.new self.old self.new result }
    {
        'swaps: for made in 0..plan.count {
            gate.pass(Place::BeforeSwap(made + 1));
            match self.swap_and_send(rt, alloc, hall, pass, plan.ticking) {
                Ok(()) => gate.pass(Place::AfterSwap(made + 1)),
                Err(stop) => return Err(stop),
            }
        }
        Ok(())
    }

    // The control makes the tick that the clock tells, publishes, swaps and swaps again, and a cycle
    // is sent after each swap.
    fn finish<W: Wait, G: Gate>(
        &mut self,
        rt: &W,
        alloc: Global,
        hall: &Hall,
        pass: &mut HallPass,
        gate: &G,
    ) -> Result<(), SendStop>
        requires { CanPlay hall.now.turns pass.old self.old }
        ensures mux { self.new.mux ≡ self.old.mux }
        ensures did { LastDid false self.old.mux pass.old pass.new self.old.player self.new.player
            (A.written self.old.air) (A.written self.new.air) result }
        ensures posted { OnOk result (HasPosted self.old.mux pass.old pass.new self.old.board self.new.board) }
        ensures board { KeepsBoard self.old.board self.new.board }
        ensures air { Wrote A.faults A.same self.old.air self.new.air result }
    {
        tick_first(rt, hall, pass, tick_now(&self.player, true))?;
        let swaps = Swaps {
            count: 2,
            ticking: false,
        };
        match hall.publish(rt, pass) {
            Ok(_) => self.play(rt, alloc, hall, pass, swaps, gate),
            Err(_) => Err(SendStop::Memory),
        }
    }

    /// The control's last turns, where they are made.
    pub(crate) fn last_turns<W: Wait, G: Gate>(
        &mut self,
        rt: &W,
        alloc: Global,
        hall: &Hall,
        pass: &mut HallPass,
        halted: bool,
        gate: &G,
    ) -> Result<(), SendStop>
        requires { (halted ≡ false) → CanPlay hall.now.turns pass.old self.old }
        ensures mux { self.new.mux ≡ self.old.mux }
        ensures did { LastDid halted self.old.mux pass.old pass.new self.old.player self.new.player
            (A.written self.old.air) (A.written self.new.air) result }
        ensures posted { OnOk result (HasPosted self.old.mux pass.old pass.new self.old.board self.new.board) }
        ensures board { KeepsBoard self.old.board self.new.board }
        ensures air { Wrote A.faults A.same self.old.air self.new.air result }
    {
        match halted {
            false => self.finish(rt, alloc, hall, pass, gate),
            true => Ok(()),
        }
    }
}
