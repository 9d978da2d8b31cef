// The outcome of an outcome line.
ghost use Rattle.std.specs.Prelude.{◌≡◌, IfSome};
ghost use Rattle.input_lines.specs.Numbers.{numeral_of};
ghost use Rattle.journal_model.specs.declared.reply.Reply.TheVariants.{Done};
ghost use Rattle.journal_model.specs.declared.step.Outcome.TheVariants.{Ticked};
ghost use Rattle.journal_model.specs.Steps.{IsInWindow};
ghost use Rattle.script_lines.specs.Outcomes.{alone, counted_field, day_fault_of, field_of, id_in, id_of, late_of, member_of, outcome_of_fields, published_of, reply_of, swapped_of};

use crate::words::plain_field;
use guide_model::Txt;
use input_lines::{is_word, number, numeral};
use journal_model::{DayFault, Field, Outcome, Reply};
use si_time::read_moment;

fn read_id(fields: &[Txt]) -> Option<u16>
    ensures { result ≡ id_of id_in fields.now }
{
    let [id] = fields else {
        return None;
    };
    let id = number(id.as_str(), 0, 65535)?;
    Some(id as u16)
}

// `count,N` or `segment,N`.
fn read_counted(word: &str, n: &str) -> Option<Field>
    ensures { result ≡ counted_field numeral_of word.now n.now }
{
    if is_word(word, "count") {
        Some(Field::Count(numeral(n)?))
    } else if is_word(word, "segment") {
        Some(Field::Segment(numeral(n)?))
    } else {
        None
    }
}

// FIELD
#[tactic(auto, unfolding(crate::specs::Outcomes::field_of))]
fn read_field(fields: &[Txt]) -> Option<Field>
    ensures { result ≡ field_of numeral_of fields.now }
{
    match fields {
        [word] => plain_field(word.as_str()),
        [word, n] => read_counted(word.as_str(), n.as_str()),
        _ => None,
    }
}

// `range,FIELD` or `overlap,E`.
#[tactic(auto, unfolding(crate::specs::Outcomes::day_fault_of))]
fn read_day_fault(fields: &[Txt]) -> Option<DayFault>
    ensures { result ≡ day_fault_of id_in numeral_of fields.now }
{
    let [word, fields @ ..] = fields else {
        return None;
    };
    if is_word(word.as_str(), "range") {
        Some(DayFault::Range(read_field(fields)?))
    } else if is_word(word.as_str(), "overlap") {
        Some(DayFault::Overlap(read_id(fields)?))
    } else {
        None
    }
}

// The place of an item in its day, and what is wrong with it.
fn read_member(fields: &[Txt]) -> Option<Reply>
    ensures { result ≡ member_of id_in numeral_of fields.now }
{
    let [place, fault @ ..] = fields else {
        return None;
    };
    let place = number(place.as_str(), 0, 65535)?;
    let fault = read_day_fault(fault)?;
    Some(Reply::Member(place as u16, fault))
}

fn read_done(fields: &[Txt]) -> Option<Reply>
    ensures { result ≡ alone Done fields.now }
{
    match fields.is_empty() {
        true => Some(Reply::Done),
        false => None,
    }
}

// The reply to an edit.
#[tactic(auto, unfolding(crate::specs::Outcomes::reply_of))]
fn read_reply(word: &str, fields: &[Txt]) -> Option<Reply>
    ensures { result ≡ reply_of id_in numeral_of word.now fields.now }
{
    if is_word(word, "done") {
        read_done(fields)
    } else if is_word(word, "foreign") {
        Some(Reply::Foreign(read_id(fields)?))
    } else if is_word(word, "range") {
        Some(Reply::Range(read_field(fields)?))
    } else if is_word(word, "overlap") {
        Some(Reply::Overlap(read_id(fields)?))
    } else if is_word(word, "member") {
        read_member(fields)
    } else {
        None
    }
}

fn read_ticked(fields: &[Txt]) -> Option<Outcome>
    ensures { result ≡ alone Ticked fields.now }
{
    match fields.is_empty() {
        true => Some(Outcome::Ticked),
        false => None,
    }
}

fn read_late(fields: &[Txt]) -> Option<Outcome>
    ensures value { result ≡ late_of fields.now }
    ensures window { IfSome result IsInWindow }
{
    let [moment] = fields else {
        return None;
    };
    let at = read_moment(moment.as_str().as_bytes())?;
    Some(Outcome::Late(at))
}

fn read_published(fields: &[Txt]) -> Option<Outcome>
    ensures value { result ≡ published_of numeral_of fields.now }
    ensures window { IfSome result IsInWindow }
{
    let [n] = fields else {
        return None;
    };
    let n = numeral(n.as_str())?;
    Some(Outcome::Published(u64::from(n)))
}

fn read_swapped(fields: &[Txt]) -> Option<Outcome>
    ensures value { result ≡ swapped_of numeral_of fields.now }
    ensures window { IfSome result IsInWindow }
{
    let [n, moment] = fields else {
        return None;
    };
    let n = numeral(n.as_str())?;
    let at = read_moment(moment.as_str().as_bytes())?;
    Some(Outcome::Swapped(u64::from(n), at))
}

/// The outcome of these fields, as an outcome line has them behind `=`. Ids and places are 0 to 65535, other numbers have
/// one to nine digits, leading zeros taken, and a moment is one that `si_time::read_moment` reads. It takes no memory.
#[tactic(auto, unfolding(crate::specs::Outcomes::outcome_of_fields))]
pub fn read_outcome(fields: &[Txt]) -> Option<Outcome>
    ensures value { result ≡ outcome_of_fields fields.now }
    ensures window { IfSome result IsInWindow }
{
    let [word, fields @ ..] = fields else {
        return None;
    };
    let word = word.as_str();
    if is_word(word, "ticked") {
        read_ticked(fields)
    } else if is_word(word, "late") {
        read_late(fields)
    } else if is_word(word, "published") {
        read_published(fields)
    } else if is_word(word, "swapped") {
        read_swapped(fields)
    } else {
        Some(Outcome::Edited(read_reply(word, fields)?))
    }
}
