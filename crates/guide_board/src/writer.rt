// The writer.
ghost use Rattle.std.specs.Prelude.{◌≡◌, ◌∷◌, [], IfOk, IfErr, OnOk, OnErr, length};
ghost use Rattle.std.specs.List.{All};
ghost use Rattle.left_right.specs.Sides.{view};
ghost use Rattle.guide_board.specs.Posts.{IsInOrder, OneBegins, post, with_post, services_of, services_in};
ghost use Rattle.guide_board.specs.Books.{ShowsAs};
ghost use Rattle.guide_board.specs.History.{word_of};

use crate::kept::Kept;
use crate::lines::lines;
use crate::note::{Books, Known, Naming, Note, Sheet};
use crate::post::{Count, Posting, add, agree, begin};
use crate::told::Told;
use crate::viewer::{Viewer, Viewers};
use left_right::writer::Writer;
use page_share::PageGuide;
use si_base::Items;
use std::alloc::{AllocError, Global};
use std::marker::Model;
use std::sync::{Arc, Wait};

/// The published value and its copy.
pub(crate) type Desk = Writer<Note, Note, Known, Books>;

/// The one that posts. Contracts see it as its board and all posts, the opening one first. It is not `Drop`: end it by
/// `close`.
pub struct BoardWriter {
    alloc: Global,
    desk: Option<Desk>,
    count: Count,
    last: Note,
}

impl Model for BoardWriter {
    ghost use Rattle.std.specs.Prelude.{◌≡◌, IfSome};
    ghost use Rattle.left_right.specs.Sides.{view as known};
    ghost use Rattle.guide_board.specs.Posts.{Sight};
    ghost use Rattle.guide_board.specs.Books.{ShowsAs};
    ghost use Rattle.guide_board.specs.History.{word_of};

    ghost Value = { Sight };

    ghost view = { λ writer. writer.last };

    ghost invariant = { λ writer. (writer.count ≡ word_of writer.last.board)
        × IfSome writer.desk (λ desk. ShowsAs writer.last desk.desk.shown.value (known desk.desk.place)) };
}

// Shows readers a note of the board; at want of memory what they see stays.
fn show<W: Wait>(rt: &W, mut desk: Desk, note: Note) -> (Desk, Result<(), AllocError>)
    requires { desk.desk.shown.value.board ≡ note.board }
    ensures shown { IfOk result.1 (λ _. ShowsAs note result.0.desk.shown.value (view result.0.desk.place)) }
    ensures value { IfErr result.1 (λ _. result.0.desk.shown.value ≡ desk.desk.shown.value) }
    ensures place { IfErr result.1 (λ _. view result.0.desk.place ≡ view desk.desk.place) }
{
    if desk.append(note).is_err() {
        return (desk, Err(AllocError));
    }
    desk.publish_as::<Naming, W>(rt)
}

// The opening post, and the word of its history.
fn opening(alloc: Global, number: u64, guide: &PageGuide) -> Result<(Count, Note), AllocError>
    requires { IsInOrder guide.now.guide }
    ensures word { IfOk result (λ opening. opening.0 ≡ word_of opening.1.board) }
    ensures posts { IfOk result (λ opening. opening.1.posts ≡ post number guide.now.guide ∷ []) }
{
    let lines = lines(alloc, guide)?;
    let sheet = Arc::new(
        alloc,
        Sheet {
            later: 0,
            number,
            lines,
        },
    )
    .map_err(|_| AllocError)?;
    let (count, history) = begin(&Posting { number, guide });
    Ok((count, Note { sheet, history }))
}

// So many viewers with no reader's place, each with room of its own for the lines.
fn seatless(alloc: Global, note: &Note, viewers: u32) -> Result<Vec<Viewer>, AllocError>
    ensures length { IfOk result (λ made. length made.items ≡ viewers) }
    ensures seen { IfOk result (λ made. All (λ viewer. viewer ≡ note.now) made.items) }
{
    let mut made = Vec::with_capacity(alloc, viewers as usize)?;
    for _ in 0..viewers {
        made.push(Viewer::of(Kept::of(alloc, note)?))?;
    }
    Ok(made)
}

// The desk of a board, which shows its opening post to so many readers.
fn set_up<W: Wait>(rt: &W, alloc: Global, note: &Note, readers: u32) -> Result<Desk, AllocError>
    ensures { IfOk result (λ desk. ShowsAs note.now desk.desk.shown.value (view desk.desk.place)) }
{
    let first = note.again()?;
    let second = note.again()?;
    let third = note.again()?;
    let desk = Writer::new(alloc, first, second, readers.max(1) as usize)?;
    let (desk, shown) = show(rt, desk, third);
    if shown.is_err() {
        desk.take(rt);
        return Err(AllocError);
    }
    Ok(desk)
}

// Gives each viewer a reader's place, as far as there are places.
fn seat_all(desk: &mut Desk, viewers: &mut Vec<Viewer>, board: &Note)
    requires desk { ShowsAs board.now desk.old.desk.shown.value (view desk.old.desk.place) }
    requires viewers { All (λ viewer. viewer ≡ board.now) viewers.old.items }
    ensures desk { ShowsAs board.now desk.new.desk.shown.value (view desk.new.desk.place) }
    ensures viewers { viewers.new.items ≡ viewers.old.items }
{
    for i in 0..viewers.len() {
        viewers[i].sit(desk);
    }
}

/// A board with its opening post, and so many viewers, which have seen it. The guide has the events of each service in order
/// without overlap. It finds no reader to wait for.
pub fn board<W: Wait>(
    rt: &W,
    alloc: Global,
    number: u64,
    guide: &PageGuide,
    viewers: u32,
) -> Result<(BoardWriter, Viewers), AllocError>
    requires order { IsInOrder guide.now.guide }
    ensures posts { IfOk result (λ board. board.0.posts ≡ post number guide.now.guide ∷ []) }
    ensures viewers { IfOk result (λ board. length board.1 ≡ viewers) }
    ensures seen { IfOk result (λ board. All (λ viewer. viewer ≡ board.0) board.1) }
{
    let (count, last) = opening(alloc, number, guide)?;
    let mut made = seatless(alloc, &last, viewers)?;
    let mut desk = set_up(rt, alloc, &last, viewers)?;
    seat_all(&mut desk, &mut made, &last);
    let writer = BoardWriter {
        alloc,
        desk: Some(desk),
        count,
        last,
    };
    Ok((writer, Items::of(made)))
}

impl BoardWriter {
    // Two notes of one more post, which the history then has.
    fn noted(&self, number: u64, guide: &PageGuide) -> Result<(Note, Note), AllocError>
        requires order { IsInOrder guide.now.guide }
        requires services { services_of guide.now.guide ≡ services_in self.now.posts }
        ensures note { IfOk result (λ notes. notes.0 ≡ with_post self.now number guide.now.guide) }
        ensures other { IfOk result (λ notes. notes.1 ≡ notes.0) }
    {
        let last = &self.last;
        let Some(later) = last.sheet.later.checked_add(1) else {
            return Err(AllocError);
        };
        let lines = lines(self.alloc, guide)?;
        let sheet = Arc::new(
            self.alloc,
            Sheet {
                later,
                number,
                lines,
            },
        )
        .map_err(|_| AllocError)?;
        let shared = Arc::try_clone(&sheet)?;
        let posting = Posting { number, guide };
        let mut history = last.history.again();
        if !add(&self.count, &mut history, last.sheet.later, &posting) {
            return Err(AllocError);
        }
        let other = Note {
            sheet: shared,
            history: history.again(),
        };
        Ok((Note { sheet, history }, other))
    }

    /// Posts a guide with the services of the opening one, the events of each in order without overlap. It waits for readers
    /// that are in a read. Want of memory leaves the board as it was.
    pub fn post<W: Wait>(
        &mut self,
        rt: &W,
        number: u64,
        guide: &PageGuide,
    ) -> Result<(), AllocError>
        requires order { IsInOrder guide.now.guide }
        requires services { services_of guide.now.guide ≡ services_in self.old.posts }
        ensures posted { OnOk result (self.new ≡ with_post self.old number guide.now.guide) }
        ensures memory { OnErr result (self.new ≡ self.old) }
        ensures board { self.new.board ≡ self.old.board }
        ensures services { services_in self.new.posts ≡ services_in self.old.posts }
    {
        let (note, shared) = self.noted(number, guide)?;
        let Some(desk) = self.desk.take() else {
            return Err(AllocError);
        };
        let (desk, shown) = show(rt, desk, shared);
        if let Some(stale) = self.desk.replace(desk) {
            stale.take(rt);
        }
        shown?;
        self.last = note;
        Ok(())
    }

    /// What was posted so far, for a viewer to learn.
    pub fn tell(&mut self) -> Result<Told, AllocError>
        ensures writer { self.new ≡ self.old }
        ensures told { IfOk result (λ told. told ≡ self.old) }
    {
        Ok(Told {
            note: self.last.again()?,
        })
    }

    /// Of the posts of the writer and those of a viewer of its board one list begins the other, whether the viewer learnt anything
    /// or not. It does nothing when it runs.
    pub fn agree(&self, viewer: &Viewer)
        requires board { viewer.now.board ≡ self.now.board }
        ensures { OneBegins self.now.posts viewer.now.posts }
    {
        agree(&self.last.history, viewer.history());
    }

    /// Ends the writer. The viewers go on.
    pub fn close<W: Wait>(self, rt: &W) {
        let BoardWriter {
            alloc: _,
            desk,
            count: _count,
            last: _last,
        } = self;
        if let Some(desk) = desk {
            desk.take(rt);
        }
    }
}
