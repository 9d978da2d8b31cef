// What was played.
use crate::desk::ScriptDesk;
use cycle_player::CyclePlayer;
use epg_report::Status;

/// A script as far as it was played: its desk, and the player of its cycles.
#[derive(Drop)]
pub struct Course {
    pub desk: ScriptDesk,
    pub player: CyclePlayer,
}

// What a run did before its report: the course of its script, where one was begun, and the status that was met.
#[derive(Drop)]
pub(crate) struct Played {
    pub(crate) course: Option<Course>,
    pub(crate) met: Status,
}
