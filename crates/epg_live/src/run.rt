// A run of feeds, control and player over files.
ghost use Rattle.std.specs.Prelude.{◌≡◌, ◌≤◌, IfErr, IfOk, OnErr, Ok, None, length, not, option_copied};
ghost use Rattle.si_causes.specs.Reading.{fresh};
ghost use Rattle.command_words.specs.Commands.{texts};
ghost use Rattle.mux_config.specs.Reads.{ReadMux};
ghost use Rattle.mux_model.specs.Sound.{IsSound};
ghost use Rattle.epg_report.specs.Told.{asked, gave, told};
ghost use Rattle.epg_live.specs.Ends.{HasAsked};
ghost use Rattle.epg_live.specs.Opened.{HasOpened};
ghost use Rattle.epg_live.specs.Views.{has_service, plan_of, unserved};
ghost use Rattle.epg_live.specs.Met.{LiveMet, LiveRanTo, StopsBefore};
ghost use Rattle.epg_live.specs.Stops.{control_status, feed_status, live_status, mux_status};

use crate::feeds::{close_feeds, open_feeds};
use crate::reporting::{LiveResult, Observed};
use command_words::LiveWords;
use epg_report::{Origin, Outlet, Status};
use headend_live::{LivePlan, LiveStop, Readers, run_live};
use mux_config::{MuxStop, read_mux};
use mux_model::Mux;
use script_lines::EditStop;
use si_base::Items;
use si_causes::{Gate, LineReader, Opener, ReadStop, Sink, Source};
use std::alloc::{AllocError, Global};
use std::marker::{Send, Sync};
use std::sync::Wait;
use std::thread::Threads;

// The status where the description of the multiplex was not read.
fn mux_status(stop: MuxStop) -> Status
    ensures { result ≡ mux_status stop }
{
    match stop {
        MuxStop::Fault(fault) => Status::BadMux(fault),
        MuxStop::Read(ReadStop::Failed) => Status::ReadFault(Origin::Input),
        MuxStop::Read(ReadStop::TooLong) => Status::TooLong(Origin::Input),
        MuxStop::Memory => Status::Memory,
    }
}

fn control_status(stop: EditStop) -> Status
    ensures { result ≡ control_status stop }
{
    match stop {
        EditStop::NoCommand(line) => Status::BadScript(line),
        EditStop::Read(ReadStop::Failed) => Status::ReadFault(Origin::Input),
        EditStop::Read(ReadStop::TooLong) => Status::TooLong(Origin::Input),
        EditStop::Memory => Status::Memory,
    }
}

fn feed_status(feed: u8, stop: EditStop) -> Status
    ensures { result ≡ feed_status feed stop }
{
    match stop {
        EditStop::NoCommand(line) => Status::BadFeed(feed, line),
        EditStop::Read(ReadStop::Failed) => Status::ReadFault(Origin::Feed(feed)),
        EditStop::Read(ReadStop::TooLong) => Status::TooLong(Origin::Feed(feed)),
        EditStop::Memory => Status::Memory,
    }
}

// The status of a run whose jobs started.
fn live_status(stop: Option<LiveStop>) -> Status
    ensures { result ≡ live_status stop }
{
    match stop {
        None => Status::Done,
        Some(LiveStop::Air) => Status::WriteFault(Outlet::Air),
        Some(LiveStop::Control(stop)) => control_status(stop),
        Some(LiveStop::Feed(feed, stop)) => feed_status(feed, stop),
        Some(LiveStop::Memory) => Status::Memory,
    }
}

// Whether feeds edit a service with this number.
fn has_service(mux: &Mux, service: u16) -> bool
    ensures { result ≡ has_service mux.now service }
{
    mux.has_fed(service)
}

// The first of these services that feeds do not edit.
fn first_unserved<'v>(mux: &Mux, views: &'v [u16]) -> Option<&'v u16>
    ensures { option_copied result ≡ unserved mux.now views.now }
{
    views.iter().find(
        |service: &&u16| -> bool
            ensures { result ≡ not (has_service mux.entry.now service.now.now) }
        { !has_service(mux, **service) },
    )
}

// The same by itself.
fn unserved(mux: &Mux, views: &[u16]) -> Option<u16>
    ensures { result ≡ unserved mux.now views.now }
{
    first_unserved(mux, views).copied()
}

// What the words say of a run.
fn plan_of(alloc: Global, words: &LiveWords) -> Result<LivePlan, AllocError>
    ensures { IfOk result (λ plan. plan ≡ plan_of words.now) }
{
    let mut views = Vec::with_capacity(alloc, words.views.len())?;
    views.extend_from_slice(words.views.as_slice())?;
    Ok(LivePlan {
        cycles: words.cycles,
        join: words.join,
        views: Items::of(views),
    })
}

// What a run begins with: the multiplex of its description, what its words say, and the readers of its feeds.
#[derive(Drop)]
struct Begun<F: Source> {
    mux: Mux,
    plan: LivePlan,
    feeds: Readers<F>,
}

// Reads the description, and opens the files of the feeds; or says why no job starts.
fn begin<O: Opener, S: Source>(
    alloc: Global,
    words: &LiveWords,
    opener: &mut O,
    lines: &mut LineReader<S>,
) -> Result<Begun<O::From>, Status>
    requires few { length words.now.feeds.items ≤ 16 }
    requires unread { lines.old ≡ fresh lines.old.source }
    ensures read { IfOk result (λ begun.
        ReadMux S.left S.faults S.same lines.old lines.new (Ok begun.mux)) }
    ensures plan { IfOk result (λ begun. begun.plan ≡ plan_of words.now) }
    ensures served { IfOk result (λ begun. unserved begun.mux words.now.views ≡ None) }
    ensures opened { IfOk result (λ begun. HasOpened O.From.left O.From.faults (texts words.now.feeds.items)
        (asked O.files O.tried O.faults O.read_faults opener.old opener.new) begun.feeds.items) }
    ensures stopped { IfErr result (StopsBefore (texts words.now.feeds.items) (plan_of words.now)
        (asked O.files O.tried O.faults O.read_faults opener.old opener.new)
        (gave S.left S.faults lines.old.source lines.new.source)) }
    ensures kept { (O.read_faults opener.new ≡ O.read_faults opener.old) × S.same lines.old.source lines.new.source }
{
    let mux = match read_mux(alloc, lines) {
        Ok(mux) => mux,
        Err(stop) => return Err(mux_status(stop)),
    };
    match unserved(&mux, words.views.as_slice()) {
        Some(service) => return Err(Status::NoView(service)),
        None => {}
    }
    let Ok(plan) = plan_of(alloc, words) else {
        return Err(Status::Memory);
    };
    match open_feeds(alloc, opener, &words.feeds) {
        Ok(feeds) => Ok(Begun { mux, plan, feeds }),
        Err(stop) => Err(stop),
    }
}

// Reads the description, opens the files of the feeds, runs their jobs, and closes the files; gives the input back.
fn run_described<W: Threads + Wait + Sync, O: Opener, S: Source + Send, A: Sink + Send, G: Gate>(
    rt: &W,
    alloc: Global,
    words: &LiveWords,
    opener: &mut O,
    mut lines: LineReader<S>,
    air: &mut A,
    gate: &G,
) -> Result<(LiveResult, S), AllocError>
    requires few { length words.now.feeds.items ≤ 16 }
    requires cycles { words.now.cycles ≤ 1000 }
    requires views { length words.now.views ≤ 8 }
    requires unread { lines ≡ fresh lines.source }
    ensures met { IfOk result (λ ran. LiveMet (texts words.now.feeds.items) (plan_of words.now)
        (asked O.files O.tried O.faults O.read_faults opener.old opener.new)
        (gave S.left S.faults lines.source ran.1) (told A.written A.faults air.old air.new) ran.0) }
    ensures asked { OnErr result (HasAsked (texts words.now.feeds.items)
        (O.tried opener.old) (O.tried opener.new) Status.Memory) }
    ensures same { IfOk result (λ ran. S.same lines.source ran.1) }
{
    let begun = match begin(alloc, words, opener, &mut lines) {
        Ok(begun) => begun,
        Err(met) => {
            let run = LiveResult::none(alloc, met);
            let source = lines.close();
            return Ok((run, source));
        }
    };
    let rate = begun.mux.rate;
    let end = run_live(
        rt,
        alloc,
        begun.mux,
        begun.plan,
        begun.feeds,
        lines,
        air,
        gate,
    )?;
    close_feeds(opener, end.feeds);
    let met = live_status(end.stop);
    let observed = Observed {
        dones: end.dones,
        views: end.views,
        guide: end.heard,
        rate,
        tally: end.tally,
    };
    let desk = Some(end.desk);
    let run = LiveResult {
        desk,
        observed,
        met,
    };
    let source = end.control.close();
    Ok((run, source))
}

/// Runs `live` up to its report: reads the description of the multiplex, opens the files of the feeds in order, and then runs their jobs,
/// the control's over the lines after the description, and the player's, side by side. `Err` comes only where memory is wanting.
pub fn run_files<W: Threads + Wait + Sync, O: Opener, S: Source + Send, A: Sink + Send, G: Gate>(
    rt: &W,
    alloc: Global,
    words: &LiveWords,
    opener: &mut O,
    input: &mut S,
    air: &mut A,
    gate: &G,
) -> Result<LiveResult, AllocError>
    requires few { length words.now.feeds.items ≤ 16 }
    requires cycles { words.now.cycles ≤ 1000 }
    requires views { length words.now.views ≤ 8 }
    ensures run { IfOk result (LiveRanTo (texts words.now.feeds.items)
        (plan_of words.now)
        O.files O.tried O.faults O.read_faults opener.old opener.new
        S.left S.faults input.old input.new A.written A.faults air.old air.new) }
    ensures asked { OnErr result (HasAsked (texts words.now.feeds.items)
        (O.tried opener.old) (O.tried opener.new) Status.Memory) }
{
    let lines = LineReader::open(alloc, &mut *input)?;
    let (live, _source) = run_described(rt, alloc, words, opener, lines, air, gate)?;
    Ok(live)
}
