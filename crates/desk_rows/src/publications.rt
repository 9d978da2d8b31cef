// What a publication shows before and after edits of the book that shared its pages.
use crate::books::{opened, put_pages_of, tell_replies};
use feed_book::Book;
use page_share::PageGuide;
use row_lines::{Buffer, Lines};
use si_time::Moment;
use std::alloc::{AllocError, Global};

/// 1993-10-13T12:45:00Z.
const AT: Moment = Moment(4_257_233_100);

// Services 101 and 103 of feed 1, and service 102 of feed 2.
const THREE_SERVICES: &str =
    "network,40,Demo/stream,1,1/service,101,1,1,256,256,Acme,One/service,102,2,1,257,257,Acme,Two/service,103,1,1,258,258,Acme,Three/end/";

// Appends what the publication shows, the replies to further edits, and what the publication shows then.
fn tell_edits(
    alloc: Global,
    lines: &mut Lines,
    book: &mut Book,
    publication: &PageGuide,
    out: &mut Buffer,
) -> Result<(), AllocError> {
    put_pages_of(publication, out)?;
    out.say("; ");
    tell_replies(alloc, lines, book, out);
    put_pages_of(publication, out)
}

// Appends the replies to edits before a publication, what it shows, and what the next publication shows.
fn tell_book(
    alloc: Global,
    lines: &mut Lines,
    book: &mut Book,
    out: &mut Buffer,
) -> Result<(), AllocError> {
    tell_replies(alloc, lines, book, out);
    let publication = book.shared(AT)?;
    tell_edits(alloc, lines, book, &publication, out)?;
    out.say("; ");
    let next = book.shared(AT)?;
    put_pages_of(&next, out)
}

/// Appends the replies to the edits of a script up to its publish, what is published, the replies to the edits after it, what that
/// publication shows then, and what the next one shows.
pub fn tell(alloc: Global, lines: &mut Lines, out: &mut Buffer) {
    if let Some(mut book) = out.made(opened(alloc, THREE_SERVICES)) {
        let done = tell_book(alloc, lines, &mut book, out);
        out.note(done);
    }
}
