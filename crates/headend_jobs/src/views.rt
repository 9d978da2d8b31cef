// The jobs of viewers, each of which asks a board for one service.
ghost use Rattle.std.specs.Prelude.{◌≡◌, ◌+◌, ◌∷◌, ◌++◌, ◌≤◌, ◌<◌, [], ℕ, Ok, true, length, slice_index_or};
ghost use Rattle.std.specs.Vec.{vec_len, vec_capacity};
ghost use mathlib.Core.List.{IsPrefix};
ghost use Rattle.guide_board.specs.Posts.{serves, services_in};
ghost use Rattle.std.specs.List.{All};
ghost use Rattle.headend_jobs.specs.Views.{AreSaid, Asked, EndWithNewest, ViewDid, ViewReady, Viewed};

use guide_board::{NowNext, Told, Viewer};
use std::marker::Sync;
use std::thread::{Threads, for_each_mut};

/// A viewer's job: the viewer, the service that it asks for, how often, and what it was answered.
#[derive(Drop)]
pub struct ViewJob {
    pub viewer: Viewer,
    pub service: u16,
    pub times: u64,
    pub answers: Vec<NowNext>,
}

// Asks once, into room that is there.
fn ask(job: &mut ViewJob)
    requires served { serves (services_in job.old.viewer.posts) job.old.service ≡ true }
    requires room { vec_len job.old.answers < vec_capacity job.old.answers }
    requires said { AreSaid job.old.viewer.posts job.old.service job.old.answers.items }
    ensures asked { Asked 1 job.old job.new }
    ensures newest { EndWithNewest job.new.viewer.posts job.old.service job.new.answers.items }
{
    let Ok(answer) = job.viewer.now_next(job.service) else {
        unreachable!()
    };
    job.answers.push_reserved(answer);
}

// Asks as often as it is to.
fn run_view(job: &mut ViewJob)
    requires { ViewReady job.old }
    ensures { ViewDid job.old job.new }
{
    for _ in 0..job.times {
        ask(job);
    }
}

/// All viewers side by side.
pub(crate) fn run_views<W: Threads + Sync>(rt: &W, jobs: &mut [ViewJob])
    requires { All ViewReady jobs.old }
    ensures len { length jobs.new ≡ length jobs.old }
    ensures each { (i : ℕ) (d : _) → i < length jobs.old → ViewDid (slice_index_or jobs.old i d) (slice_index_or jobs.new i d) }
{
    let run = |_i: usize, job: &mut ViewJob|
        requires { ViewReady job.now }
        ensures { ViewDid job.entry.now job.exit.now }
    { run_view(job) };
    let count = jobs.len();
    if count > 0 {
        for_each_mut(rt, jobs, count, &run);
    }
}

impl ViewJob {
    /// Learns what was told, and asks once more, into room that is there.
    pub fn finish(&mut self, told: Told)
        requires board { told.board ≡ self.old.viewer.board }
        requires served { serves (services_in self.old.viewer.posts) self.old.service ≡ true }
        requires room { vec_len self.old.answers < vec_capacity self.old.answers }
        requires said { AreSaid self.old.viewer.posts self.old.service self.old.answers.items }
        ensures service { self.new.service ≡ self.old.service }
        ensures viewed { Viewed told.posts (length self.old.answers.items + 1) self.old.service self.new.viewer self.new.answers.items }
    {
        self.viewer.learn(told);
        ask(self);
    }
}
