//! A journal of numbers, each with the caller that made it: what threads leave, and what a pass finds in its next turn.
ghost use Rattle.std.specs.Prelude.{◌≡◌, ◌⊎◌, ℕ, ◌+◌, ◌<◌, List, [], ◌∷◌, ◌++◌, IfOk, IfErr};
ghost use Rattle.turn_lock.specs.Journal.{Grows};

use crate::{Chronicle, Job, Pass, Receipt, Turns};
use std::alloc::AllocError;
use std::marker::Sync;
use std::sync::Wait;
use std::thread::{Threads, join};

#[derive(Clone, Copy, Debug, PartialEq)]
struct Mark {
    who: u32,
    number: u32,
}

/// The state: a list of marks, which stands on nothing.
#[derive(Drop)]
struct Log {
    marks: Vec<Mark>,
}

impl Chronicle for Log {
    type Entry = Mark;

    type Ground = ();

    ghost entries = { λ s. s.marks.items };

    ghost stands_on = { λ _. tt };

    ghost caller = { λ e. e.who };

    fn count(&self) -> u64 {
        self.marks.len() as u64
    }
}

/// Appends one mark; at want of memory, nothing.
struct Append {
    number: u32,
}

impl Job<Log> for Append {
    type Answer = Result<(), AllocError>;

    ghost may_run = { λ _. Unit {0} };

    ghost does = { λ j who base before after answer. IfOk answer (λ _. after ≡ before ++ record { who = who; number = j.number } ∷ []) × IfErr answer (λ _. after ≡ before) };

    fn run(self, who: u32, state: &mut Log) -> Result<(), AllocError> {
        let Append { number } = self;
        state.marks.push(Mark { who, number })?;
        Ok(())
    }
}

/// Looks for the last number of a caller, and appends nothing.
struct Last {
    who: u32,
}

impl Job<Log> for Last {
    type Answer = Option<u32>;

    ghost may_run = { λ _. Unit {0} };

    ghost does = { λ j who base before after answer. after ≡ before };

    fn run(self, _who: u32, state: &mut Log) -> Option<u32> {
        let Last { who } = self;
        let mut last = None;
        for mark in &state.marks {
            if mark.who == who {
                last = Some(mark.number);
            }
        }
        last
    }
}

/// Turns with the numbers from 0 on.
fn many<W: Wait>(rt: &W, turns: &Turns<Log>, mut pass: Pass<Log>, count: u32) -> Pass<Log>
    requires { pass.turns ≡ turns.now.turns }
    ensures { (result.turns ≡ pass.turns) × (result.own.low ≡ pass.own.low) × (result.own.span ≡ pass.own.span) × (result.finished ≡ pass.finished) }
{
    for number in 0..count {
        let _ = turns.turn(rt, &mut pass, Append { number });
    }
    pass
}

#[test]
fn two_callers_make_a_thousand_turns_each(rt: HostRuntime) {
    let log = Log {
        marks: Vec::new(rt.alloc()),
    };
    let (turns, mut first) = Turns::open(rt.alloc(), log, 2).expect(&rt, "memory");
    let second = first.split(&turns, 1);
    let (second, mut first) = join(
        &rt,
        || many(&rt, &turns, second, 1000),
        || many(&rt, &turns, first, 1000),
    );
    first.join(&turns, second);
    let log = turns.close(first);
    let mut counts = [0; 2];
    assert!(rt; ascend(&log.marks, &mut counts) && counts == [1000; 2]);
}

/// Two passes turn side by side.
fn two<W: Threads + Wait + Sync>(
    rt: &W,
    turns: &Turns<Log>,
    first: Pass<Log>,
    second: Pass<Log>,
    count: u32,
) -> (Pass<Log>, Pass<Log>)
    requires { (first.turns ≡ turns.now.turns) × (second.turns ≡ turns.now.turns) }
    ensures first { (result.0.turns ≡ first.turns) × (result.0.own.low ≡ first.own.low) × (result.0.own.span ≡ first.own.span) × (result.0.finished ≡ first.finished) }
    ensures second { (result.1.turns ≡ second.turns) × (result.1.own.low ≡ second.own.low) × (result.1.own.span ≡ second.own.span) × (result.1.finished ≡ second.finished) }
{
    join(
        rt,
        || many(rt, turns, first, count),
        || many(rt, turns, second, count),
    )
}

/// Counts the marks of each caller, whose numbers ascend from 0; false where one does not.
fn ascend(marks: &[Mark], counts: &mut [u32]) -> bool {
    for mark in marks {
        match counts.get_mut(mark.who as usize) {
            Some(count) if *count == mark.number => *count = count.saturating_add(1),
            _ => return false,
        }
    }
    true
}

/// A wake-up that is lost leaves a caller parked, and the test hangs.
#[test]
fn four_callers_make_twenty_thousand_turns(rt: HostRuntime) {
    let log = Log {
        marks: Vec::new(rt.alloc()),
    };
    let (turns, mut first) = Turns::open(rt.alloc(), log, 4).expect(&rt, "memory");
    let mut third = first.split(&turns, 2);
    let fourth = third.split(&turns, 1);
    let second = first.split(&turns, 1);
    let ((mut first, second), (mut third, fourth)) = join(
        &rt,
        || two(&rt, &turns, first, second, 5000),
        || two(&rt, &turns, third, fourth, 5000),
    );
    third.join(&turns, fourth);
    first.join(&turns, second);
    first.join(&turns, third);
    let log = turns.close(first);
    let mut counts = [0; 4];
    assert!(rt; ascend(&log.marks, &mut counts) && counts == [5000; 4]);
}

/// Three turns, and a receipt of what was seen behind them.
fn three<W: Wait>(rt: &W, turns: &Turns<Log>, pass: Pass<Log>) -> (Pass<Log>, Receipt<Log>)
    requires { pass.turns ≡ turns.now.turns }
    ensures pass { (result.0.turns ≡ pass.turns) × (result.0.own.low ≡ pass.own.low) × (result.0.own.span ≡ pass.own.span) × (result.0.finished ≡ pass.finished) }
    ensures receipt { (result.1.turns ≡ pass.turns) × (result.1.seen ≡ result.0.seen) }
{
    let mut pass = many(rt, turns, pass, 3);
    let receipt = pass.receipt(turns);
    (pass, receipt)
}

#[test]
fn a_receipt_shows_the_third_turn(rt: HostRuntime) {
    let log = Log {
        marks: Vec::new(rt.alloc()),
    };
    let (turns, mut first) = Turns::open(rt.alloc(), log, 2).expect(&rt, "memory");
    let second = first.split(&turns, 1);
    let ((second, receipt), mut first) = join(
        &rt,
        || three(&rt, &turns, second),
        || many(&rt, &turns, first, 5),
    );
    first.learn(&turns, receipt);
    assert_eq!(rt; turns.turn(&rt, &mut first, Last { who: 1 }), Some(2));
    first.join(&turns, second);
    turns.close(first);
}

#[test]
fn a_look_leaves_the_list(rt: HostRuntime) {
    let log = Log {
        marks: Vec::new(rt.alloc()),
    };
    let (turns, mut pass) = Turns::open(rt.alloc(), log, 1).expect(&rt, "memory");
    assert!(rt; turns.turn(&rt, &mut pass, Append { number: 7 }).is_ok());
    assert_eq!(rt; turns.turn(&rt, &mut pass, Last { who: 0 }), Some(7));
    assert_eq!(rt; turns.turn(&rt, &mut pass, Last { who: 5 }), None);
    let log = turns.close(pass);
    assert_eq!(rt;
        log.marks.as_slice(),
        [Mark { who: 0, number: 7 }].as_slice()
    );
}

#[test]
fn numbers_are_dealt_out_and_taken_in(rt: HostRuntime) {
    let log = Log {
        marks: Vec::new(rt.alloc()),
    };
    let (turns, mut low) = Turns::open(rt.alloc(), log, 5).expect(&rt, "memory");
    let mut middle = low.split(&turns, 3);
    let mut high = middle.split(&turns, 1);
    assert_eq!(rt; (low.who(), low.span()), (0, 2));
    assert_eq!(rt; (middle.who(), middle.span()), (2, 2));
    assert_eq!(rt; (high.who(), high.span()), (4, 1));
    assert!(rt; turns.turn(&rt, &mut high, Append { number: 3 }).is_ok());
    assert!(rt; turns.turn(&rt, &mut low, Append { number: 9 }).is_ok());
    assert!(rt; turns.turn(&rt, &mut middle, Append { number: 6 }).is_ok());
    middle.join(&turns, high);
    low.join(&turns, middle);
    let log = turns.close(low);
    assert_eq!(rt;
        log.marks.as_slice(),
        [
            Mark { who: 4, number: 3 },
            Mark { who: 0, number: 9 },
            Mark { who: 2, number: 6 },
        ]
        .as_slice()
    );
}

#[test]
fn a_dropped_pass_leaves_its_entries(rt: HostRuntime) {
    let log = Log {
        marks: Vec::new(rt.alloc()),
    };
    let (turns, mut first) = Turns::open(rt.alloc(), log, 2).expect(&rt, "memory");
    {
        let mut second = first.split(&turns, 1);
        assert!(rt; turns.turn(&rt, &mut second, Append { number: 4 }).is_ok());
    }
    assert_eq!(rt; turns.turn(&rt, &mut first, Last { who: 1 }), Some(4));
    assert!(rt; turns.turn(&rt, &mut first, Append { number: 5 }).is_ok());
    assert_eq!(rt; turns.turn(&rt, &mut first, Last { who: 0 }), Some(5));
}
