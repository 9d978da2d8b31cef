// Edits on the lines of a reader.
ghost use Rattle.std.specs.Prelude.{◌≡◌, ◌∷◌, ◌++◌, [], IfErr, IfOk, IfSome, OnOk, option_and_then, drop, length};
ghost use Rattle.std.specs.List.{All};
ghost use Rattle.input_lines.specs.Fields.{record_of};
ghost use Rattle.input_lines.specs.declared.stop.EditStop.TheVariants.{Memory};
ghost use Rattle.input_lines.specs.Reads.{NextOf, ReadOf, Says};
ghost use Rattle.script_lines.specs.Items.{item_line};
ghost use Rattle.journal_model.specs.Edits.{IsShapedItem, IsShaped};
ghost use Rattle.script_lines.specs.Heads.{IsShapedHead, edit_head};
ghost use Rattle.script_lines.specs.Edits.{first_edit, first_item, items_of, read_edit as edit_at, with_items as edit_with};

use crate::heads::{Head, read_head};
use crate::items::read_item_line;
use guide_model::Txt;
use input_lines::{EditStop, LineFields, fields, next_record_line};
use journal_model::{DayItems, Edit, Item};
use si_causes::{LineReader, Source};
use std::alloc::Global;

// The item that line `at` is.
fn item_on(alloc: Global, at: u64, line: &[u8]) -> Result<Item, EditStop>
    ensures says { Says at (option_and_then item_line (record_of line.now)) result }
    ensures shaped { IfOk result IsShapedItem }
{
    let Some(fields) = fields(alloc, line)? else {
        return Err(EditStop::NoCommand(at));
    };
    match read_item_line(alloc, fields.as_slice())? {
        Some(item) => Ok(item),
        None => Err(EditStop::NoCommand(at)),
    }
}

// The head that the fields of line `at` are.
fn head_of(alloc: Global, at: u64, fields: &[Txt]) -> Result<Head, EditStop>
    ensures says { Says at (edit_head fields.now) result }
    ensures shaped { IfOk result IsShapedHead }
{
    match read_head(alloc, fields)? {
        Some(head) => Ok(head),
        None => Err(EditStop::NoCommand(at)),
    }
}

// The head that line `at` is.
fn head_on(alloc: Global, at: u64, line: &[u8]) -> Result<Head, EditStop>
    ensures says { Says at (option_and_then edit_head (record_of line.now)) result }
    ensures shaped { IfOk result IsShapedHead }
{
    let Some(fields) = fields(alloc, line)? else {
        return Err(EditStop::NoCommand(at));
    };
    head_of(alloc, at, fields.as_slice())
}

// The item on the next line.
fn next_item<S: Source>(alloc: Global, lines: &mut LineReader<S>) -> Result<Item, EditStop>
    ensures reads { ReadOf S.left S.faults S.same first_item lines.old lines.new result }
    ensures shaped { IfOk result IsShapedItem }
{
    match next_record_line(lines) {
        Ok(Some(at)) => item_on(alloc, at, lines.line()),
        Ok(None) => Err(EditStop::NoCommand(lines.number() + 1)),
        Err(stop) => Err(EditStop::Read(stop)),
    }
}

// One item more.
fn keep(items: &mut DayItems, item: Item) -> Result<(), EditStop>
    ensures kept { OnOk result (items.new ≡ items.old ++ item ∷ []) }
    ensures memory { IfErr result (λ stop. stop ≡ Memory) }
{
    match items.push(item) {
        Ok(()) => Ok(()),
        Err(_) => Err(EditStop::Memory),
    }
}

// No item, with room for so many where there is memory for them.
fn no_items(alloc: Global, count: u32) -> DayItems
    ensures { result ≡ [] }
{
    match Vec::with_capacity(alloc, count as usize) {
        Ok(items) => DayItems::of(items),
        Err(_) => DayItems::new(alloc),
    }
}

// So many items, each on the next line.
fn next_items<S: Source>(
    alloc: Global,
    count: u32,
    lines: &mut LineReader<S>,
) -> Result<DayItems, EditStop>
    ensures reads { ReadOf S.left S.faults S.same (items_of count) lines.old lines.new result }
    ensures shaped { IfOk result (All IsShapedItem) }
    ensures counted { IfOk result (λ items. length items ≡ count) }
{
    let mut items = no_items(alloc, count);
    'items: for _ in 0..count {
        let item = match next_item(alloc, lines) {
            Ok(item) => item,
            Err(stop) => return Err(stop),
        };
        if let Err(stop) = keep(&mut items, item) {
            return Err(stop);
        }
    }
    Ok(items)
}

// The edit of a head, with the items of a day.
fn with_items<S: Source>(
    alloc: Global,
    head: Head,
    lines: &mut LineReader<S>,
) -> Result<Edit, EditStop>
    requires { IsShapedHead head }
    ensures reads { ReadOf S.left S.faults S.same (edit_with head) lines.old lines.new result }
    ensures shaped { IfOk result IsShaped }
{
    match head {
        Head::Whole(edit) => Ok(edit),
        Head::OfDay(service, day, count) => match next_items(alloc, count, lines) {
            Ok(items) => Ok(Edit::Day(service, day, items)),
            Err(stop) => Err(stop),
        },
    }
}

/// The edit whose fields stand in `fields` from index `from` on; `at` is the number of their line. The items of a day
/// are read from `lines`, each on the next line that is not passed over. The items that are read are shaped: starts,
/// durations and days have their shapes, a day has at most 2,000 items, and a rating names a country.
///
/// `NoCommand(at)` comes exactly where the fields are no edit. Where a line that is no item comes in place of an item,
/// `NoCommand` has its number; where the end comes, that of the last line plus 1, lines that are passed over counted.
/// `Read` comes as from [`LineReader::next`]; a reader that has stopped gives what needs no line, or its stop. After a refusal the
/// reader stands behind the line that was refused, or at the end, where a line is missing; after want of memory it stands behind
/// the last line that was looked at.
pub fn read_edit<S: Source>(
    alloc: Global,
    fields: &LineFields,
    from: usize,
    at: u64,
    lines: &mut LineReader<S>,
) -> Result<Edit, EditStop>
    ensures reads { ReadOf S.left S.faults S.same (edit_at at (drop from fields.now)) lines.old lines.new result }
    ensures shaped { IfOk result IsShaped }
{
    let Some(fields) = fields.as_slice().get(from..) else {
        return Err(EditStop::NoCommand(at));
    };
    match head_of(alloc, at, fields) {
        Ok(head) => with_items(alloc, head, lines),
        Err(stop) => Err(stop),
    }
}

/// The next edit, or `None` exactly at the end. Empty lines and lines that begin with `#` are passed over.
///
/// `NoCommand` has the number of the first line that is no edit there, as in [`read_edit`]. `Read` comes as from
/// [`LineReader::next`], and after it each later call answers the same. No line is taken behind those that an answer needs.
pub fn next_edit<S: Source>(
    alloc: Global,
    lines: &mut LineReader<S>,
) -> Result<Option<Edit>, EditStop>
    ensures reads { NextOf S.left S.faults S.same first_edit lines.old lines.new result }
    ensures shaped { IfOk result (λ found. IfSome found IsShaped) }
{
    let at = match next_record_line(lines) {
        Ok(Some(at)) => at,
        Ok(None) => return Ok(None),
        Err(stop) => return Err(EditStop::Read(stop)),
    };
    let head = match head_on(alloc, at, lines.line()) {
        Ok(head) => head,
        Err(stop) => return Err(stop),
    };
    match with_items(alloc, head, lines) {
        Ok(edit) => Ok(Some(edit)),
        Err(stop) => Err(stop),
    }
}
