// The sub-tables of what stands after the edits of a row.
ghost use Rattle.std.specs.Prelude.{◌<◌, ◌*◌, IfOk, IfSome};
ghost use Rattle.air_model.specs.Air.{CanBeTold};
ghost use Rattle.section_codec.specs.SubTables.{AreFit};
ghost use Rattle.journal_model.specs.Edits.{IsShaped};
ghost use Rattle.mux_model.specs.Sound.{IsSound};
ghost use Rattle.publication_rows.specs.Books.{KeepsBook};

use feed_book::Book;
use guide_model::Offsets;
use journal_model::{Edit, Reply};
use mux_config::read_mux;
use mux_model::Mux;
use publication::build;
use row_lines::{Lines, Row, WHOLE, reader, written_out};
use script_lines::{EditStop, next_edit};
use section_codec::Tables;
use si_time::{Moment, read_moment};
use std::alloc::{AllocError, Global};

/// The feed of all services and edits.
const FEED: u8 = 1;

// Does an edit; whether it is done.
fn do_edit(book: &mut Book, edit: &Edit) -> Result<bool, AllocError>
    requires { IsShaped edit.now }
    ensures { IfOk result (λ done. KeepsBook book.old book.new) }
{
    match book.edit(FEED, edit)? {
        Reply::Done => Ok(true),
        _ => Ok(false),
    }
}

// Does the edits of these lines up to their end; whether each is done.
fn do_edits(alloc: Global, lines: &mut Lines, book: &mut Book) -> Result<bool, AllocError>
    ensures { IfOk result (λ done. KeepsBook book.old book.new) }
{
    'edits: for _ in 0..10_000 {
        match next_edit(alloc, lines) {
            Ok(Some(edit)) => {
                if !do_edit(book, &edit)? {
                    return Ok(false);
                }
            }
            Ok(None) => return Ok(true),
            Err(EditStop::Memory) => return Err(AllocError),
            Err(_) => return Ok(false),
        }
    }
    Ok(false)
}

// The sub-tables at a moment, where each edit is done.
fn tables_behind(
    alloc: Global,
    moment: Moment,
    mux: &Mux,
    lines: &mut Lines,
) -> Result<Option<Tables>, AllocError>
    requires { IsSound mux.now }
    ensures { IfOk result (λ tables. IfSome tables (λ tables. AreFit tables.list)) }
{
    let mut book = Book::open(alloc, mux)?;
    if !do_edits(alloc, lines, &mut book)? {
        return Ok(None);
    }
    let guide = book.shared(moment)?;
    let tables = build(alloc, mux, &guide)?;
    Ok(Some(tables))
}

fn tables_of(alloc: Global, moment: Moment, text: &str) -> Result<Option<Tables>, AllocError>
    ensures { IfOk result (λ tables. IfSome tables (λ tables. AreFit tables.list)) }
{
    let Some(text) = written_out(alloc, text) else {
        return Ok(None);
    };
    let mut lines = reader(alloc, text.text(), WHOLE)?;
    match read_mux(alloc, &mut lines) {
        Ok(mux) => tables_behind(alloc, moment, &mux, &mut lines),
        Err(_) => Ok(None),
    }
}

/// The sub-tables of the publication of these lines at a moment.
pub fn tables_at(row: &mut Row, moment: Moment, text: &str) -> Option<Tables>
    ensures { IfSome result (λ tables. AreFit tables.list) }
{
    match tables_of(row.alloc(), moment, text) {
        Ok(Some(tables)) => return Some(tables),
        Ok(None) => row.refuse(),
        Err(_) => row.lack_memory(),
    }
    None
}

// The offsets of local time of a multiplex.
fn offsets_of_mux(mux: &Mux) -> Result<Offsets, AllocError>
    requires { IsSound mux.now }
    ensures { IfOk result CanBeTold }
{
    let offsets = mux.offsets.copy()?;
    Ok(offsets)
}

fn offsets_of(alloc: Global, text: &str) -> Result<Option<Offsets>, AllocError>
    ensures { IfOk result (λ offsets. IfSome offsets CanBeTold) }
{
    let Some(text) = written_out(alloc, text) else {
        return Ok(None);
    };
    let mut lines = reader(alloc, text.text(), WHOLE)?;
    match read_mux(alloc, &mut lines) {
        Ok(mux) => {
            let offsets = offsets_of_mux(&mux)?;
            Ok(Some(offsets))
        }
        Err(_) => Ok(None),
    }
}

/// The offsets of the description in these lines.
pub fn offsets_at(row: &mut Row, text: &str) -> Option<Offsets>
    ensures { IfSome result CanBeTold }
{
    match offsets_of(row.alloc(), text) {
        Ok(Some(offsets)) => return Some(offsets),
        Ok(None) => row.refuse(),
        Err(_) => row.lack_memory(),
    }
    None
}

/// A moment.
pub fn moment(row: &mut Row) -> Option<Moment>
    ensures { IfSome result (λ at. at.0 < 65536 * 86400) }
{
    let at = read_moment(row.word().as_bytes());
    if at.is_none() {
        row.refuse();
    }
    at
}

/// `MOMENT LINES`: the sub-tables of a publication at that moment.
pub fn built(row: &mut Row) -> Option<Tables> {
    let at = moment(row)?;
    let text = row.word();
    tables_at(row, at, text)
}
