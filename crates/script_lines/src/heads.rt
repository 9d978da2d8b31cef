// The line of an edit.
ghost use Rattle.std.specs.Prelude.{◌≡◌, IfOk, IfSome};
ghost use Rattle.script_lines.specs.Heads.{IsShapedHead, clear_of, day_head_of, edit_head, name_of, put_of, withdraw_of};

use crate::items::{read_day, read_item};
use guide_model::Txt;
use input_lines::{is_word, number};
use journal_model::{DayText, Edit};
use std::alloc::{AllocError, Global};

/// What the line of an edit gives: a whole edit, or a day and how many items follow on lines of their own.
#[derive(Drop)]
pub enum Head {
    Whole(Edit),
    OfDay(u16, DayText, u32),
}

fn read_put(alloc: Global, fields: &[Txt]) -> Result<Option<Head>, AllocError>
    ensures value { IfOk result (λ found. found ≡ put_of fields.now) }
    ensures shaped { IfOk result (λ found. IfSome found IsShapedHead) }
{
    let [service, fields @ ..] = fields else {
        return Ok(None);
    };
    let Some(service) = number(service.as_str(), 0, 65535) else {
        return Ok(None);
    };
    let Some(item) = read_item(alloc, fields)? else {
        return Ok(None);
    };
    Ok(Some(Head::Whole(Edit::Put(service as u16, item))))
}

fn read_withdraw(fields: &[Txt]) -> Option<Head>
    ensures value { result ≡ withdraw_of fields.now }
    ensures shaped { IfSome result IsShapedHead }
{
    let [service, event] = fields else {
        return None;
    };
    let service = number(service.as_str(), 0, 65535)?;
    let event = number(event.as_str(), 0, 65535)?;
    Some(Head::Whole(Edit::Withdraw(service as u16, event as u16)))
}

fn read_clear(fields: &[Txt]) -> Option<Head>
    ensures value { result ≡ clear_of fields.now }
    ensures shaped { IfSome result IsShapedHead }
{
    let [service] = fields else {
        return None;
    };
    let service = number(service.as_str(), 0, 65535)?;
    Some(Head::Whole(Edit::Clear(service as u16)))
}

fn read_name(fields: &[Txt]) -> Result<Option<Head>, AllocError>
    ensures value { IfOk result (λ found. found ≡ name_of fields.now) }
    ensures shaped { IfOk result (λ found. IfSome found IsShapedHead) }
{
    let [service, provider, name] = fields else {
        return Ok(None);
    };
    let Some(service) = number(service.as_str(), 0, 65535) else {
        return Ok(None);
    };
    Ok(Some(Head::Whole(Edit::Name(service as u16, provider.copy()?, name.copy()?))))
}

fn read_day_head(fields: &[Txt]) -> Option<Head>
    ensures value { result ≡ day_head_of fields.now }
    ensures shaped { IfSome result IsShapedHead }
{
    let [service, date, count] = fields else {
        return None;
    };
    let service = number(service.as_str(), 0, 65535)?;
    let date = read_day(date.as_str().as_bytes())?;
    let count = number(count.as_str(), 0, 2000)?;
    Some(Head::OfDay(service as u16, date, count))
}

/// The edit that the fields of a line are, without the items of a day; `None` exactly where they are no edit.
#[tactic(auto, unfolding(crate::specs::Heads::edit_head))]
pub fn read_head(alloc: Global, fields: &[Txt]) -> Result<Option<Head>, AllocError>
    ensures value { IfOk result (λ found. found ≡ edit_head fields.now) }
    ensures shaped { IfOk result (λ found. IfSome found IsShapedHead) }
{
    let [word, fields @ ..] = fields else {
        return Ok(None);
    };
    let word = word.as_str();
    if is_word(word, "put") {
        read_put(alloc, fields)
    } else if is_word(word, "withdraw") {
        Ok(read_withdraw(fields))
    } else if is_word(word, "clear") {
        Ok(read_clear(fields))
    } else if is_word(word, "name") {
        read_name(fields)
    } else if is_word(word, "day") {
        Ok(read_day_head(fields))
    } else {
        Ok(None)
    }
}
