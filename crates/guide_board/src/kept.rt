// What a viewer keeps.
ghost use Rattle.std.specs.Prelude.{◌≡◌, IfOk, is_ok};
ghost use mathlib.Core.List.{IsPrefix};
ghost use Rattle.guide_board.specs.Posts.{AnswersNewest, serves, services_in};

use crate::lines::{Line, NoService, NowNext, line_at};
use crate::note::Note;
use crate::post::History;
use std::alloc::{AllocError, Global};
use std::marker::Model;

/// The newest post that a viewer read or learnt, in room of its own, with the history that ends with it.
#[derive(Drop)]
pub(crate) struct Kept {
    later: u64,
    number: u64,
    lines: Vec<Line>,
    history: History,
}

impl Model for Kept {
    ghost use Rattle.guide_board.specs.Posts.{Sight};
    ghost use Rattle.guide_board.specs.History.{IsSheet};

    ghost Value = { Sight };

    ghost view = { λ kept. record { board = kept.history.book; posts = kept.history.log } };

    ghost invariant = { λ kept. IsSheet kept.later kept.number kept.lines.items kept.history.log };
}

impl Kept {
    /// What a note says.
    pub fn of(alloc: Global, note: &Note) -> Result<Kept, AllocError>
        ensures { IfOk result (λ kept. kept ≡ note.now) }
    {
        let mut lines = Vec::with_capacity(alloc, note.sheet.lines.len())?;
        lines.extend_from_slice(note.sheet.lines.as_slice())?;
        Ok(Kept {
            later: note.sheet.later,
            number: note.sheet.number,
            lines,
            history: note.history.again(),
        })
    }

    /// The history up to the newest post.
    pub fn history(&self) -> &History
        ensures board { result.now.book ≡ self.now.board }
        ensures posts { result.now.log ≡ self.now.posts }
    {
        &self.history
    }

    /// Keeps the newer of the two posts. It takes no memory.
    pub fn take_in(&mut self, note: &Note)
        requires board { note.now.board ≡ self.old.board }
        ensures board { self.new.board ≡ self.old.board }
        ensures own { IsPrefix self.old.posts self.new.posts }
        ensures told { IsPrefix note.now.posts self.new.posts }
        ensures services { services_in self.new.posts ≡ services_in self.old.posts }
    {
        let mut both = self.history.again();
        both.learn(&note.history);
        if self.later < note.sheet.later {
            self.later = note.sheet.later;
            self.number = note.sheet.number;
            self.lines
                .as_mut_slice()
                .copy_from_slice(note.sheet.lines.as_slice());
            self.history = note.history.again();
        }
    }

    /// What the newest post says of a service. It takes no memory.
    pub fn answer(&self, service: u16) -> Result<NowNext, NoService>
        ensures answer { AnswersNewest self.now.posts service result }
        ensures served { is_ok result ≡ serves (services_in self.now.posts) service }
    {
        match line_at(self.lines.as_slice(), service) {
            Some(line) => Ok(NowNext {
                number: self.number,
                now: line.present,
                next: line.following,
            }),
            None => Err(NoService(service)),
        }
    }
}
