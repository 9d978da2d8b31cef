// What goes on while a script is followed.
ghost use Rattle.std.specs.Prelude.{◌≡◌};
ghost use Rattle.desk_core.specs.Lean.{StandsFor};
ghost use Rattle.epg_follow.specs.Items.{IsFresh};

use cycle_player::CyclePlayer;
use desk_checkpoint::Start;
use desk_core::LeanDesk;
use journal_model::Outcome;
use script_notes::Held;

/// What goes on while a script is followed: a desk without its journal, by how much the numbers of its publications are less than those
/// that are reported, and a player; the outcome that was reported last, where the next line may keep it; and what is held of the last line.
#[derive(Drop)]
pub struct Follower {
    pub desk: LeanDesk,
    pub shift: u64,
    pub player: CyclePlayer,
    pub made: Option<Outcome>,
    pub held: Held,
}

impl Follower {
    /// What goes on from a start.
    pub fn from(start: Start) -> Follower
        ensures mux { result.desk.mux ≡ start.desk.mux }
        ensures stands { StandsFor start.desk.entries result.desk }
        ensures shift { result.shift ≡ start.shift }
        ensures player { result.player ≡ start.player }
        ensures fresh { IsFresh result }
    {
        let Start {
            desk,
            shift,
            player,
        } = start;
        Follower {
            desk: desk.without_journal(),
            shift,
            player,
            made: None,
            held: Held::Nothing,
        }
    }
}
