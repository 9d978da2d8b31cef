// What is published, and the rule under which it is.
ghost use Rattle.std.specs.Prelude.{◌≡◌, IfOk};

use crate::lines::Line;
use crate::post::History;
use atomic_table::{Join, Split};
use crossbeam_utils::rule::{Outcome, Protocol};
use left_right::Absorb;
use std::alloc::AllocError;
use std::marker::Model;
use std::sync::Arc;

/// The lines of a post, with its number and how many posts were made behind the opening one up to it.
#[derive(Drop)]
pub(crate) struct Sheet {
    pub later: u64,
    pub number: u64,
    pub lines: Vec<Line>,
}

/// A post that threads share, with the history that ends with it.
#[derive(Drop)]
pub(crate) struct Note {
    pub sheet: Arc<Sheet>,
    pub history: History,
}

impl Model for Note {
    ghost use Rattle.std.specs.Arc.{arc_value};
    ghost use Rattle.guide_board.specs.Posts.{Sight};
    ghost use Rattle.guide_board.specs.History.{IsSheet};

    ghost Value = { Sight };

    ghost view = { λ note. record { board = note.history.book; posts = note.history.log } };

    ghost invariant = { λ note. IsSheet (arc_value note.sheet).later (arc_value note.sheet).number
        (arc_value note.sheet).lines.items note.history.log };
}

impl Note {
    /// Another note of the same post. It takes no memory.
    pub fn again(&self) -> Result<Note, AllocError>
        ensures { IfOk result (λ note. note ≡ self.now) }
    {
        Ok(Note {
            sheet: Arc::try_clone(&self.sheet)?,
            history: self.history.again(),
        })
    }
}

impl Absorb<Note> for Note {
    type State = Note;

    ghost state = { λ note. note };

    ghost applied = { λ _ operation. operation };

    fn absorb_first(&mut self, operation: &Note, _other: &Note) -> Result<(), AllocError> {
        *self = operation.again()?;
        Ok(())
    }
}

/// What a seat at the published value knows: its board, if it knows one. No value of it is made.
pub(crate) struct Known {
    pub named: [u64; 0],
}

/// The rule of the published value.
pub(crate) struct Books;

impl Protocol<Note, Known> for Books {
    ghost use Rattle.std.specs.Prelude.{[]};
    ghost use Rattle.guide_board.specs.Books.{Agree};

    ghost holds = { Agree };

    ghost first = { record { named = [] } };
}

/// A read or a post.
pub(crate) struct Naming;

impl Outcome<Note, Known> for Naming {
    ghost use Rattle.guide_board.specs.Books.{NamesBoard};

    ghost then = { NamesBoard };
}

/// The writer keeps its view, and a note of it goes to a reader.
pub(crate) struct Both;

impl Split<Known> for Both {
    ghost left = { λ known. known };

    ghost right = { λ known. known };
}

/// A reader takes the writer's view for its own.
pub(crate) struct Taking;

impl Join<Known> for Taking {
    ghost use Rattle.std.specs.Prelude.{[]};

    ghost both = { λ own told. told };

    ghost spent = { record { named = [] } };
}
