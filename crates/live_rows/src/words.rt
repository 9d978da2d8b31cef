// Parts of answers in words.
use journal_model::{Edit, Entry, Outcome, Reply, Step};
use row_lines::{Buffer, say};
use script_lines::EditStop;
use si_causes::ReadStop;
use std::alloc::AllocError;
use std::fmt::Write;

/// Appends why a job that reads ended.
pub fn put_stop(out: &mut Buffer, stop: Option<EditStop>) {
    match stop {
        None => out.say("end"),
        Some(EditStop::NoCommand(line)) => say!(out; "line {line} refused"),
        Some(EditStop::Read(ReadStop::Failed)) => out.say("read failed"),
        Some(EditStop::Read(ReadStop::TooLong)) => out.say("text too long"),
        Some(EditStop::Memory) => out.note(Err(AllocError)),
    }
}

// Appends the kind of an edit with its service, and the number of its event.
fn put_edit(out: &mut Buffer, edit: &Edit) {
    match edit {
        Edit::Put(service, item) => say!(out; "put {service} {}", item.id),
        Edit::Withdraw(service, id) => say!(out; "withdraw {service} {id}"),
        Edit::Clear(service) => say!(out; "clear {service}"),
        Edit::Name(service, _, _) => say!(out; "name {service}"),
        Edit::Day(service, _, _) => say!(out; "day {service}"),
    }
}

/// Appends a step; an edit without its feed.
pub fn put_step(out: &mut Buffer, step: &Step) {
    match step {
        Step::Edit(_, edit) => put_edit(out, edit),
        Step::Tick(_) => out.say("tick"),
        Step::Publish => out.say("publish"),
        Step::Swap => out.say("swap"),
    }
}

/// Appends the reply to an edit, in short.
pub fn put_reply(out: &mut Buffer, reply: Reply) {
    match reply {
        Reply::Done => out.say("done"),
        Reply::Foreign(service) => say!(out; "foreign {service}"),
        Reply::Range(_) => out.say("range"),
        Reply::Overlap(event) => say!(out; "overlap {event}"),
        Reply::Member(place, _) => say!(out; "member {place}"),
    }
}

/// Appends an outcome, in short.
pub fn put_outcome(out: &mut Buffer, outcome: Outcome) {
    match outcome {
        Outcome::Edited(reply) => put_reply(out, reply),
        Outcome::Ticked => out.say("ticked"),
        Outcome::Late(_) => out.say("late"),
        Outcome::Published(number) => say!(out; "published {number}"),
        Outcome::Swapped(number, _) => say!(out; "swapped {number}"),
    }
}

/// Appends the entries that are such: of each its caller, its step and its outcome.
pub fn put_entries<F: Fn(&Entry) -> bool>(out: &mut Buffer, entries: &[Entry], is_such: F)
    requires { F.IsAlwaysCallable is_such }
{
    for entry in entries {
        if is_such(entry) {
            say!(out; "{} ", entry.who);
            put_step(out, &entry.step);
            out.say(" ");
            put_outcome(out, entry.outcome);
            out.say("; ");
        }
    }
}

/// Appends the steps of one caller.
pub fn put_steps_of(out: &mut Buffer, who: u32, entries: &[Entry]) {
    say!(out; "{who}:");
    for entry in entries {
        if entry.who == who {
            out.say(" ");
            put_step(out, &entry.step);
            out.say(",");
        }
    }
    out.say(" end; ");
}
