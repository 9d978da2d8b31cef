// What a feed book replies to edits, and what stands after them.
ghost use Rattle.script_lines.specs.Script.{IsItemWithin};
ghost use Rattle.mux_model.specs.Sound.{IsSound};

use crate::events::put_guide;
use crate::words::{put_edit_stop, put_reply};
use feed_book::Book;
use journal_model::Step;
use journal_text::{ScriptItem, next_item};
use mux_config::read_mux;
use mux_model::Mux;
use page_share::PageGuide;
use row_lines::{Buffer, Lines, WHOLE, reader};
use si_time::Moment;
use std::alloc::{AllocError, Global};

/// 1993-10-13T12:45:00Z.
const AT: Moment = Moment(4_257_233_100);

// Service 101 of feed 1, and service 102 of feed 2.
const TWO_SERVICES: &str =
    "network,40,Demo/stream,1,1/service,101,1,1,256,256,Acme,One/service,102,2,1,257,257,Acme,Two/end/";

fn book_of(alloc: Global, mux: &Mux) -> Result<Book, AllocError>
    requires { IsSound mux.now }
{
    Book::open(alloc, mux)
}

/// The book of the multiplex of a description that can be read, so it fails for want of memory alone.
pub fn opened(alloc: Global, description: &str) -> Result<Book, AllocError> {
    let mut lines = reader(alloc, description, WHOLE)?;
    match read_mux(alloc, &mut lines) {
        Ok(mux) => book_of(alloc, &mux),
        Err(_) => Err(AllocError),
    }
}

// Appends the reply to an edit; whether there may be more.
fn reply_to(book: &mut Book, item: &ScriptItem, out: &mut Buffer) -> bool
    requires { IsItemWithin item.now }
{
    let ScriptItem::Step(_, Step::Edit(feed, edit)) = item else {
        return false;
    };
    let Some(reply) = out.made(book.edit(*feed, edit)) else {
        return false;
    };
    put_reply(out, reply);
    out.say("; ");
    true
}

// Appends the reply to the next edit, or the stop; whether there may be more.
fn tell_next(alloc: Global, lines: &mut Lines, book: &mut Book, out: &mut Buffer) -> bool {
    match next_item(alloc, lines, false) {
        Ok(item) => reply_to(book, &item, out),
        Err(stop) => {
            put_edit_stop(out, stop);
            false
        }
    }
}

/// Appends the replies to the edits of a script.
pub fn tell_replies(alloc: Global, lines: &mut Lines, book: &mut Book, out: &mut Buffer) {
    for _ in 0..10_000 {
        if !tell_next(alloc, lines, book, out) {
            break;
        }
    }
}

/// Appends what the copy of the copy of what pages show has.
pub fn put_pages_of(shared: &PageGuide, out: &mut Buffer) -> Result<(), AllocError> {
    let guide = shared.copy()?;
    let copy = guide.copy()?;
    put_guide(out, &copy);
    Ok(())
}

// Appends what the pages show that the book shares.
fn put_pages(book: &mut Book, out: &mut Buffer) -> Result<(), AllocError> {
    let shared = book.shared(AT)?;
    put_pages_of(&shared, out)
}

// Appends what stands, and what the pages show that the book shares where they show something else.
fn put_both(alloc: Global, book: &mut Book, out: &mut Buffer) {
    let mut standing = Buffer::open(alloc);
    if let Some(guide) = standing.made(book.guide(AT)) {
        put_guide(&mut standing, &guide);
    }
    let mut pages = Buffer::open(alloc);
    let done = put_pages(book, &mut pages);
    out.note(done);
    out.note_of(&standing);
    out.put(standing.as_slice());
    if pages.as_slice() != standing.as_slice() {
        out.say("; pages: ");
        out.put(pages.as_slice());
    }
}

/// Appends the replies to the edits of a script, and then what stands.
pub fn tell(alloc: Global, lines: &mut Lines, out: &mut Buffer) {
    if let Some(mut book) = out.made(opened(alloc, TWO_SERVICES)) {
        tell_replies(alloc, lines, &mut book, out);
        put_both(alloc, &mut book, out);
    }
}
