// A run of `live` over the sources of a load.
ghost use Rattle.std.specs.Prelude.{◌≡◌, ◌≤◌, ◌∷◌, [], IfOk};
ghost use Rattle.command_words.specs.Commands.{texts};
ghost use Rattle.epg_report.specs.Told.{told};
ghost use Rattle.epg_soak.specs.Runs.{soak_text};
ghost use Rattle.epg_soak.specs.Files.{soak_paths};
ghost use Rattle.epg_soak.specs.Load.{LoadMet};

use crate::feed_texts::FeedTexts;
use command_words::{LiveWords, Paths};
use epg_live::{LiveResult, run_files};
use si_base::Items;
use si_causes::{Gate, NeverFails, Sink};
use si_workload::{made_control, made_mux};
use std::alloc::{AllocError, Global};
use std::marker::{Send, Sync};
use std::sync::Wait;
use std::thread::Threads;

// The text of the input: the description, and the lines of the control.
fn input_text(alloc: Global, number: u64) -> Result<Vec<u8>, AllocError>
    ensures { IfOk result (λ text. text.items ≡ soak_text) }
{
    let mut text = made_mux(alloc, number)?;
    text.extend_from_slice(&made_control(alloc, number)?)?;
    Ok(text)
}

// The paths of the feeds.
fn feed_paths(alloc: Global) -> Result<Paths, AllocError>
    ensures { IfOk result (λ paths. texts paths.items ≡ soak_paths) }
{
    let mut paths = Vec::new(alloc);
    paths.push(String::from_str(alloc, "1")?)?;
    paths.push(String::from_str(alloc, "2")?)?;
    Ok(paths)
}

/// Runs the load with this number as `live` does, with three cycles, heard from packet 0 on.
pub(crate) fn run_load<W: Threads + Wait + Sync, A: Sink + Send, G: Gate>(
    rt: &W,
    alloc: Global,
    number: u64,
    air: &mut A,
    gate: &G,
) -> Result<LiveResult, AllocError>
    requires { number ≤ 999999999 }
    ensures { IfOk result (LoadMet number (told A.written A.faults air.old air.new)) }
{
    let words = LiveWords {
        feeds: feed_paths(alloc)?,
        cycles: 3,
        join: 0,
        views: Items::new(alloc),
    };
    let mut opener = FeedTexts::of_load(alloc, number)?;
    let mut input = NeverFails::open(input_text(alloc, number)?);
    run_files(rt, alloc, &words, &mut opener, &mut input, air, gate)
}
