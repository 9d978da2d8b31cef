// The views of a run: jobs of viewers, and the lines of what they were answered.
ghost use Rattle.std.specs.Prelude.{◌≡◌, ◌≤◌, ◌+◌, ◌∷◌, ◌++◌, List, ℕ, IfOk, OnOk, [], length, map};
ghost use Rattle.std.specs.List.{All, AllByRecursion, AllZip};
ghost use Rattle.mux_model.specs.Sound.{IsSound};
ghost use Rattle.headend_jobs.specs.Posting.{opening_of};
ghost use Rattle.headend_jobs.specs.Views.{Viewed};
ghost use Rattle.headend_live.specs.Viewing.{AreViewed, IsAsked, IsNew, asked_for, line_of};

use desk_core::Desk;
use guide_board::{BoardWriter, NowNext, Viewer, Viewers, board};
use headend_jobs::ViewJob;
use mux_model::Mux;
use si_base::Items;
use std::alloc::{AllocError, Global};
use std::sync::Wait;

/// The services of views, in order.
pub type Numbers = Items<u16>;

/// A line of a view: the service that its viewer asked for, and an answer.
#[derive(Clone, Copy, PartialEq, Eq)]
pub struct ViewLine {
    pub service: u16,
    pub read: NowNext,
}

/// The lines of views, in their order.
pub type ViewLines = Items<ViewLine>;

/// What views leave: their lines, and the viewer of each.
#[derive(Drop)]
pub(crate) struct Views {
    pub lines: ViewLines,
    pub viewers: Viewers,
}

impl Views {
    /// Of none. It takes no memory.
    pub fn none(alloc: Global) -> Views
        ensures lines { result.lines ≡ [] }
        ensures viewers { result.viewers ≡ [] }
    {
        Views {
            lines: Items::new(alloc),
            viewers: Items::new(alloc),
        }
    }

    /// Of none yet, with room for those of so many views.
    pub fn room(alloc: Global, views: usize, cycles: u64) -> Result<Views, AllocError>
        requires few { views ≤ 8 }
        requires cycles { cycles ≤ 1000 }
        ensures lines { IfOk result (λ views. views.lines ≡ []) }
        ensures viewers { IfOk result (λ views. views.viewers ≡ []) }
    {
        let lines = Vec::with_capacity(alloc, views * (cycles as usize + 1))?;
        let viewers = Vec::with_capacity(alloc, views)?;
        Ok(Views {
            lines: Items::of(lines),
            viewers: Items::of(viewers),
        })
    }

    // Adds a view.
    fn add(&mut self, view: ViewJob) -> Result<(), AllocError>
        ensures lines { OnOk result (self.new.lines ≡ self.old.lines ++ map (line_of view.service) view.answers.items) }
        ensures viewers { OnOk result (self.new.viewers ≡ self.old.viewers ++ view.viewer ∷ []) }
    {
        put_lines(&mut self.lines, view.service, view.answers.as_slice())?;
        self.viewers.push(view.viewer)?;
        Ok(())
    }
}

// Appends the lines of answers.
fn put_lines(lines: &mut ViewLines, service: u16, answers: &[NowNext]) -> Result<(), AllocError>
    ensures { OnOk result (lines.new ≡ lines.old ++ map (line_of service) answers.now) }
{
    for answer in answers {
        lines.push(ViewLine {
            service,
            read: *answer,
        })?;
    }
    Ok(())
}

// The job of a view, with room for all its answers.
fn view_job(alloc: Global, viewer: Viewer, service: u16, cycles: u64) -> Result<ViewJob, AllocError>
    requires { cycles ≤ 1000 }
    ensures { IfOk result (IsNew viewer cycles service) }
{
    let answers = Vec::with_capacity(alloc, cycles as usize + 1)?;
    Ok(ViewJob {
        viewer,
        service,
        times: cycles,
        answers,
    })
}

// The jobs of the views of these services.
fn view_jobs(
    alloc: Global,
    mut viewers: Vec<Viewer>,
    services: &[u16],
    cycles: u64,
) -> Result<Vec<ViewJob>, AllocError>
    requires cycles { cycles ≤ 1000 }
    requires viewers { length viewers.items ≡ length services.now }
    ensures { (board : _) → All (λ viewer. viewer ≡ board) viewers.items
        → IfOk result (λ jobs. AllZip (IsNew board cycles) services.now jobs.items) }
{
    let mut jobs = Vec::with_capacity(alloc, services.len())?;
    for service in services {
        let Some(viewer) = viewers.pop() else {
            unreachable!()
        };
        jobs.push(view_job(alloc, viewer, *service, cycles)?)?;
    }
    Ok(jobs)
}

/// A board whose opening post is publication 0 of a multiplex, and the jobs of the views of these services, before they begin.
pub(crate) fn open_views<W: Wait>(
    rt: &W,
    alloc: Global,
    mux: &Mux,
    services: &[u16],
    cycles: u64,
) -> Result<(BoardWriter, Vec<ViewJob>), AllocError>
    requires sound { IsSound mux.now }
    requires few { length services.now ≤ 8 }
    requires cycles { cycles ≤ 1000 }
    ensures opening { IfOk result (λ views. views.0.posts ≡ opening_of mux.now ∷ []) }
    ensures jobs { IfOk result (λ views. AllZip (IsNew views.0 cycles) services.now views.1.items) }
{
    let desk = Desk::open(alloc, mux.copy()?)?;
    let opening = desk.on_air()?;
    let count = services.len() as u32;
    let (writer, viewers) = board(rt, alloc, opening.number, &opening.guide, count)?;
    match view_jobs(alloc, viewers.into_vec(), services, cycles) {
        Ok(jobs) => Ok((writer, jobs)),
        Err(error) => {
            writer.close(rt);
            Err(error)
        }
    }
}

/// Tells each viewer what was posted, and has it ask once more.
pub(crate) fn gather(
    board: &mut BoardWriter,
    mut jobs: Vec<ViewJob>,
    mut views: Views,
) -> Result<Views, AllocError>
    requires asked { (cycles : ℕ) × AllByRecursion (IsAsked board.old cycles) jobs.items }
    requires none { (views.lines ≡ []) × (views.viewers ≡ []) }
    ensures { (cycles : ℕ) → AllByRecursion (IsAsked board.old cycles) jobs.items
        → IfOk result (λ views. AreViewed board.old.posts (cycles + 1) (asked_for jobs.items) views.viewers views.lines) }
{
    'asked: while !jobs.is_empty() {
        let told = board.tell()?;
        let mut job = jobs.remove(0);
        job.finish(told);
        views.add(job)?;
    }
    Ok(views)
}
