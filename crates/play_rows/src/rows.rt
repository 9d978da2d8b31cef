// A row and its answer.
use crate::again::tell_again;
use crate::changed::tell_changes;
use crate::cuts::{Cut, tell_cuts};
use crate::damaged::tell_cut_off;
use crate::due::tell_order;
use crate::examples::tell_example;
use crate::fronts::tell_fronts;
use crate::heard::tell_heard;
use crate::orders::tell_held;
use crate::stays::tell_stays;
use crate::turns::tell_promised;
use row_airs::cut;
use row_lines::World;
use run_tools::Bench;

/// Fills in what a row gives; None where it is no row.
pub fn tell<W: World>(bench: &mut Bench<W>, row: &str) -> Option<()> {
    let (call, rest) = cut(row);
    match call {
        "cuts" => tell_cuts(bench, Cut::Swap, rest),
        "cuts2" => tell_cuts(bench, Cut::TwoSwaps, rest),
        "steps" => tell_cuts(bench, Cut::Command, rest),
        "turns" => tell_changes(bench, rest),
        "fronts" => tell_fronts(bench, rest),
        "order" => tell_order(bench, rest),
        "example" => tell_example(bench, rest),
        _ => tell_heard_or_live(bench, call, row),
    }
}

// The same of the calls on recordings and on runs of `live`.
fn tell_heard_or_live<W: World>(bench: &mut Bench<W>, call: &str, row: &str) -> Option<()> {
    let (_, rest) = cut(row);
    match call {
        "cut" => tell_cut_off(bench, rest),
        "heard" => tell_heard(bench, rest),
        "stays" => tell_stays(bench, rest),
        "held" => tell_held(bench, rest),
        "promised" => tell_promised(bench, rest),
        "again" => tell_again(bench, rest),
        _ => bench.tell(row),
    }
}
