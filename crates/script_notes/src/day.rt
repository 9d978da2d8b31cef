// The items of a day, each on the next line.
ghost use Rattle.std.specs.Prelude.{◌≡◌, ◌++◌, ◌∷◌, [], None, IfErr, IfOk, IfSome, OnOk};
ghost use Rattle.input_lines.specs.declared.stop.EditStop.TheVariants.{Memory};
ghost use Rattle.journal_model.specs.Edits.{IsShapedItem};
ghost use Rattle.script_notes.specs.Heads.{IsSoundHead};
ghost use Rattle.script_notes.specs.declared.head.LineHead.TheVariants as head;
ghost use Rattle.script_notes.specs.Walks.{IsItemOn, IsItemRead, IsNoted, day_walk, held_at as is_held, item_in};
ghost use Rattle.script_notes.specs.Sound.{IsSoundNoted, IsSoundRead};

use crate::head::DayHead;
use crate::noting::{Held, Noting};
use crate::why::Why;
use crate::why_line::{is_attached, why_of_item};
use input_lines::{EditStop, fields, next_record_line};
use journal_model::{DayItems, Edit, Item, Step};
use script_lines::{ScriptItem, read_item_line};
use si_causes::{LineReader, Source};
use std::alloc::{AllocError, Global};

/// What the next line gives in place of an item: the item, or why there is none.
#[derive(Drop)]
pub(crate) enum ItemRead {
    Item(Item),
    Bad(Noting, Held),
}

// The item that a line is.
fn item_on(alloc: Global, line: &[u8]) -> Result<Option<Item>, AllocError>
    ensures value { IfOk result (λ found. found ≡ item_in line.now) }
    ensures shaped { IfOk result (λ found. IfSome found IsShapedItem) }
{
    match fields(alloc, line)? {
        Some(fields) => read_item_line(alloc, fields.as_slice()),
        None => Ok(None),
    }
}

// What a line that is no item leaves to be held.
fn held_at(line: &[u8]) -> Held
    ensures { result ≡ is_held line.now }
{
    if is_attached(line) {
        Held::Attached
    } else {
        Held::Line
    }
}

// What line `at` is in place of an item.
fn read_item(alloc: Global, at: u64, line: &[u8]) -> Result<ItemRead, EditStop>
    ensures says { IsItemOn at line.now result }
    ensures sound { IfOk result IsSoundRead }
{
    if let Some(item) = item_on(alloc, line)? {
        return Ok(ItemRead::Item(item));
    }
    let why = why_of_item(alloc, line)?;
    Ok(ItemRead::Bad(Noting::Bad(at, why), held_at(line)))
}

// The next line in place of an item.
fn next_item<S: Source>(alloc: Global, lines: &mut LineReader<S>) -> Result<ItemRead, EditStop>
    requires going { lines.old.stop ≡ None }
    ensures reads { IsItemRead S.left S.faults S.same lines.old lines.new result }
    ensures sound { IfOk result IsSoundRead }
{
    match next_record_line(lines) {
        Ok(Some(at)) => read_item(alloc, at, lines.line()),
        Ok(None) => {
            let missing = Noting::Bad(lines.number() + 1, Why::NoItem);
            Ok(ItemRead::Bad(missing, Held::Ended))
        }
        Err(stop) => Err(EditStop::Read(stop)),
    }
}

// One item more.
fn keep(items: &mut DayItems, item: Item) -> Result<(), EditStop>
    ensures kept { OnOk result (items.new ≡ items.old ++ item ∷ []) }
    ensures memory { IfErr result (λ stop. stop ≡ Memory) }
{
    match items.push(item) {
        Ok(()) => Ok(()),
        Err(_) => Err(EditStop::Memory),
    }
}

/// The command of a day, with its items, or the line that is at fault in place of one.
pub(crate) fn read_day<S: Source>(
    alloc: Global,
    day: DayHead,
    lines: &mut LineReader<S>,
) -> Result<(Noting, Held), EditStop>
    requires going { lines.old.stop ≡ None }
    requires sound { IsSoundHead (head.OfDay day) }
    ensures reads { IsNoted S.left S.faults S.same (day_walk day day.count []) lines.old lines.new result }
    ensures sound { IfOk result IsSoundNoted }
{
    let mut items = DayItems::new(alloc);
    'items: for _ in 0..day.count {
        let item = match next_item(alloc, lines) {
            Ok(ItemRead::Item(item)) => item,
            Ok(ItemRead::Bad(noting, held)) => return Ok((noting, held)),
            Err(stop) => return Err(stop),
        };
        if let Err(stop) = keep(&mut items, item) {
            return Err(stop);
        }
    }
    let edit = Edit::Day(day.service, day.date, items);
    let step = Step::Edit(day.feed, edit);
    Ok((Noting::Item(ScriptItem::Step(day.who, step)), Held::Nothing))
}
