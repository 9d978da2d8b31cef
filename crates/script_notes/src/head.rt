// What the line of a command or of an outcome gives, without the items of a day.
ghost use Rattle.std.specs.Prelude.{◌≡◌, IfOk, IfSome, option_map};
ghost use Rattle.script_lines.specs.Heads.{IsShapedHead};
ghost use Rattle.script_lines.specs.Script.{kept_in};
ghost use Rattle.script_lines.specs.Heads.{edit_head as the_edit};
ghost use Rattle.script_notes.specs.Heads.{IsSoundHead, command_head, feed_head, fields_head, kept_head, line_head};

use guide_model::Txt;
use input_lines::fields;
use journal_model::{DayText, Step};
use script_lines::{
    Head, ScriptItem, read_caller, read_feed, read_head, read_outcome, read_short, starts_outcome,
};
use std::alloc::{AllocError, Global};

/// A day whose items follow on lines of their own: who asks, the feed, the service, the date, and how many items.
#[derive(Drop)]
pub(crate) struct DayHead {
    pub(crate) who: u32,
    pub(crate) feed: u8,
    pub(crate) service: u16,
    pub(crate) date: DayText,
    pub(crate) count: u32,
}

/// What a line gives in place of a command: a whole item, or a day.
#[derive(Drop)]
pub(crate) enum LineHead {
    Whole(ScriptItem),
    OfDay(DayHead),
}

// The outcome that an outcome line keeps, where it may stand.
#[tactic(auto, unfolding(script_lines::specs::Outcomes::outcome_of_fields))]
fn kept(at: u64, fields: &[Txt], after: bool) -> Option<LineHead>
    ensures value { result ≡ option_map (kept_head at) (kept_in after fields.now) }
    ensures sound { IfSome result IsSoundHead }
{
    if !after {
        return None;
    }
    let [_, outcome @ ..] = fields else {
        return None;
    };
    let outcome = read_outcome(outcome)?;
    Some(LineHead::Whole(ScriptItem::Kept(at, outcome)))
}

fn feed_head(who: u32, feed: u8, head: Head) -> LineHead
    requires { IsShapedHead head }
    ensures value { result ≡ feed_head who feed head }
    ensures sound { IsSoundHead result }
{
    match head {
        Head::Whole(edit) => LineHead::Whole(ScriptItem::Step(who, Step::Edit(feed, edit))),
        Head::OfDay(service, date, count) => LineHead::OfDay(DayHead {
            who,
            feed,
            service,
            date,
            count,
        }),
    }
}

fn edit_head(
    alloc: Global,
    who: u32,
    feed: u8,
    fields: &[Txt],
) -> Result<Option<LineHead>, AllocError>
    ensures value { IfOk result (λ found. found ≡ option_map (feed_head who feed) (the_edit fields.now)) }
    ensures sound { IfOk result (λ found. IfSome found IsSoundHead) }
{
    match read_head(alloc, fields)? {
        Some(head) => Ok(Some(feed_head(who, feed, head))),
        None => Ok(None),
    }
}

// The command of a caller.
fn command_head(alloc: Global, who: u32, fields: &[Txt]) -> Result<Option<LineHead>, AllocError>
    ensures value { IfOk result (λ found. found ≡ command_head who fields.now) }
    ensures sound { IfOk result (λ found. IfSome found IsSoundHead) }
{
    if let Some(step) = read_short(fields) {
        return Ok(Some(LineHead::Whole(ScriptItem::Step(who, step))));
    }
    let Some(feed) = read_feed(fields) else {
        return Ok(None);
    };
    let [_, _, fields @ ..] = fields else {
        unreachable!()
    };
    edit_head(alloc, who, feed, fields)
}

fn fields_head(
    alloc: Global,
    at: u64,
    fields: &[Txt],
    after: bool,
) -> Result<Option<LineHead>, AllocError>
    ensures value { IfOk result (λ found. found ≡ fields_head after at fields.now) }
    ensures sound { IfOk result (λ found. IfSome found IsSoundHead) }
{
    if starts_outcome(fields) {
        return Ok(kept(at, fields, after));
    }
    let Some(who) = read_caller(fields) else {
        return command_head(alloc, 0, fields);
    };
    let [_, fields @ ..] = fields else {
        unreachable!()
    };
    command_head(alloc, who, fields)
}

/// What line `at` gives in place of a command; `after` says whether a command came just before. `None` exactly where it is at fault.
pub(crate) fn line_head(
    alloc: Global,
    at: u64,
    line: &[u8],
    after: bool,
) -> Result<Option<LineHead>, AllocError>
    ensures value { IfOk result (λ found. found ≡ line_head after at line.now) }
    ensures sound { IfOk result (λ found. IfSome found IsSoundHead) }
{
    match fields(alloc, line)? {
        Some(fields) => fields_head(alloc, at, fields.as_slice(), after),
        None => Ok(None),
    }
}
