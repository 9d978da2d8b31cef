// Sending the cycle of what is on air.
ghost use Rattle.std.specs.Prelude.{◌≡◌, ◌≤◌, ◌<◌, ◌*◌, [], List, Err, IfOk, OnOk};
ghost use Rattle.air_model.specs.Air.{Aired};
ghost use Rattle.cycle_player.specs.Sending.{AtEnd};
ghost use Rattle.journal_model.specs.declared.step.Entry.{Entry as AnEntry};
ghost use Rattle.mux_model.specs.Sound.{IsSound};
ghost use Rattle.desk_core.specs.Lean.{IsLean, StandsFor, stood_for};
ghost use Rattle.guide_limits.specs.Limits.{IsGuideWithin};
ghost use Rattle.publication.specs.Tables.{HasServicesOf};
ghost use Rattle.journal_air.specs.declared.send.SendStop.TheVariants.{Memory};
ghost use Rattle.cycle_player.specs.Tally.{no_cycles};
ghost use Rattle.journal_air.specs.OnAir.{AreAlike, HasAirCause, IsPlayerOf, SentCycle, airing_by, airing_on};
ghost use Rattle.journal_air.specs.Tallied.{CountedCycle};

use cycle_player::CyclePlayer;
use desk_core::{Airing, LeanDesk};
use mux_model::Mux;
use publication::build;
use si_causes::Sink;
use std::alloc::{AllocError, Global};

/// Why a cycle was not sent whole: the air failed, or want of memory before any packet was sent.
#[derive(Clone, Copy, PartialEq, Eq)]
pub enum SendStop {
    Air,
    Memory,
}

impl From<AllocError> for SendStop {
    ghost from_gives = { λ _ e. e ≡ Memory };

    fn from(_: AllocError) -> SendStop {
        SendStop::Memory
    }
}

/// A player that sends the cycles of a multiplex, at its bit rate where it has one, of its quota
/// and with its offsets of local time (EN 300 468, 5.2.6). It has sent nothing, and needs a sound
/// multiplex.
pub fn open_player(alloc: Global, mux: &Mux) -> Result<CyclePlayer, AllocError>
    requires { IsSound mux.now }
    ensures at_end { IfOk result (AtEnd []) }
    ensures player_of { IfOk result (IsPlayerOf mux.now) }
    ensures tally { IfOk result (λ player. player.tally ≡ no_cycles) }
{
    let offsets = mux.offsets.copy()?;
    Ok(CyclePlayer::open(alloc, mux.rate, mux.quota, offsets))
}

/// Sends one whole cycle of a publication of this multiplex: of its sub-tables at the moment at
/// which it went on air, with the versions and continuity counters that go on from the cycles
/// before (EN 300 468, 5.1; ISO/IEC 13818-1, 2.4.3). The cycle has the form of the player's cycles
/// and its bit rate; without a rate, sections of one PID that follow each other share packets. It
/// needs a player at its end, a moment whose day has 16 bits, and a guide within its limits that
/// has the services of the multiplex in their order, as each publication of a desk has.
///
/// `Air` comes only where the air's count of faults rose, or stands at its last value: the air then has a proper front of the cycle.
/// With `Memory` nothing of the cycle was sent, and the player is as it was.
pub fn send_cycle<A: Sink>(
    alloc: Global,
    mux: &Mux,
    airing: &Airing,
    player: &mut CyclePlayer,
    air: &mut A,
) -> Result<(), SendStop>
    requires sound { IsSound mux.now }
    requires services { HasServicesOf mux.now airing.now.guide }
    requires within { IsGuideWithin airing.now.guide }
    requires moment { airing.now.moment.0 < 65536 * 86400 }
    requires at_end { player.old.left ≡ [] }
    ensures sent { (xs : List Aired) → AtEnd xs player.old → SentCycle xs (airing_by mux.now player.old.form airing.now) player.new (A.written air.old) (A.written air.new) result }
    ensures ended { OnOk result (player.new.left ≡ []) }
    ensures form { player.new.form ≡ player.old.form }
    ensures rate { player.new.rate ≡ player.old.rate }
    ensures counted { CountedCycle (airing_by mux.now player.old.form airing.now) player.old player.new result }
    ensures cause { HasAirCause (A.faults air.old) (A.faults air.new) result }
    ensures memory { result ≡ Err SendStop.Memory → (air.new ≡ air.old) × (player.new ≡ player.old) }
    ensures later { A.faults air.old ≤ A.faults air.new }
    ensures same { A.same air.old air.new }
{
    let tables = build(alloc, mux, &airing.guide)?;
    player.swap(tables, airing.number, airing.moment)?;
    match player.play_cycle(air) {
        Ok(()) => Ok(()),
        Err(_) => Err(SendStop::Air),
    }
}

/// As `send_cycle`, of the publication that is on air at a desk, at the moment of the last swap.
pub fn send_on_air<A: Sink>(
    alloc: Global,
    desk: &LeanDesk,
    player: &mut CyclePlayer,
    air: &mut A,
) -> Result<(), SendStop>
    requires lean { IsLean desk.now }
    requires at_end { player.old.left ≡ [] }
    ensures sent { (journal : List AnEntry) (xs : List Aired) → StandsFor journal desk.now
        → AtEnd xs player.old → SentCycle xs (airing_on (stood_for journal desk.now) player.old.form)
        player.new (A.written air.old) (A.written air.new) result }
    ensures counted { (journal : List AnEntry) → StandsFor journal desk.now
        → CountedCycle (airing_on (stood_for journal desk.now) player.old.form)
        player.old player.new result }
    ensures ended { OnOk result (player.new.left ≡ []) }
    ensures alike { AreAlike player.old player.new }
    ensures cause { HasAirCause (A.faults air.old) (A.faults air.new) result }
    ensures memory { result ≡ Err SendStop.Memory
        → (air.new ≡ air.old) × (player.new ≡ player.old) }
    ensures later { A.faults air.old ≤ A.faults air.new }
    ensures same { A.same air.old air.new }
{
    let airing = desk.on_air()?;
    send_cycle(alloc, desk.mux(), &airing, player, air)
}
