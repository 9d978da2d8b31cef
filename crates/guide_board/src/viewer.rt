// A viewer.
ghost use Rattle.std.specs.Prelude.{◌≡◌, is_ok};
ghost use mathlib.Core.List.{IsPrefix};
ghost use Rattle.left_right.specs.Sides.{view};
ghost use Rattle.guide_board.specs.Posts.{AnswersNewest, OneBegins, serves, services_in};
ghost use Rattle.guide_board.specs.Books.{ShowsAs};

use crate::kept::Kept;
use crate::lines::{NoService, NowNext};
use crate::note::{Books, Both, Known, Naming, Note, Taking};
use crate::post::{History, agree};
use crate::told::Told;
use crate::writer::Desk;
use left_right::reader::Reader;
use si_base::Items;
use std::marker::Model;

/// A reader's place at the published value.
pub(crate) type Seat = Reader<Note, Known, Books>;

/// A viewer of a board. Contracts see it as its board and the posts from the opening one up to the newest that it
/// read or learnt.
#[derive(Drop)]
pub struct Viewer {
    seat: Option<Seat>,
    kept: Kept,
}

/// The viewers of a board.
pub type Viewers = Items<Viewer>;

impl Model for Viewer {
    ghost use Rattle.std.specs.Prelude.{◌≡◌, IfSome};
    ghost use Rattle.left_right.specs.Sides.{view as known};
    ghost use Rattle.guide_board.specs.Posts.{Sight};
    ghost use Rattle.guide_board.specs.Books.{numbers};

    ghost Value = { Sight };

    ghost view = { λ viewer. viewer.kept };

    ghost invariant = { λ viewer. IfSome viewer.seat (λ seat. (known seat.place).named ≡ numbers viewer.kept.board) };
}

impl Viewer {
    /// A viewer with no reader's place. It takes no memory.
    pub(crate) fn of(kept: Kept) -> Viewer
        ensures { result ≡ kept }
    {
        Viewer { seat: None, kept }
    }

    /// Takes a reader's place, if there is one.
    pub(crate) fn sit(&mut self, desk: &mut Desk)
        requires { ShowsAs self.old desk.old.desk.shown.value (view desk.old.desk.place) }
        ensures viewer { self.new ≡ self.old }
        ensures desk { ShowsAs self.old desk.new.desk.shown.value (view desk.new.desk.place) }
    {
        if let Ok(mut seat) = desk.factory().reader() {
            seat.learn::<Taking>(desk.tell::<Both>());
            self.seat = Some(seat);
        }
    }

    // Reads the published post, and keeps it if it is newer. It waits for nobody.
    fn read(&mut self)
        ensures board { self.new.board ≡ self.old.board }
        ensures seen { IsPrefix self.old.posts self.new.posts }
        ensures services { services_in self.new.posts ≡ services_in self.old.posts }
    {
        let Some(seat) = self.seat.take() else { return };
        match seat.enter_as::<Naming>() {
            Ok(reading) => {
                self.kept.take_in(reading.get());
                self.seat = Some(reading.leave());
            }
            Err(seat) => self.seat = Some(seat),
        }
    }

    /// The number of a post, with its present and following event of a service. The post is not older than any that the
    /// viewer saw or learnt, and the viewer has then seen it. It waits for nobody and takes no memory.
    pub fn now_next(&mut self, service: u16) -> Result<NowNext, NoService>
        ensures board { self.new.board ≡ self.old.board }
        ensures seen { IsPrefix self.old.posts self.new.posts }
        ensures services { services_in self.new.posts ≡ services_in self.old.posts }
        ensures answer { AnswersNewest self.new.posts service result }
        ensures served { is_ok result ≡ serves (services_in self.new.posts) service }
    {
        self.read();
        self.kept.answer(service)
    }

    /// The history up to the newest post that it read or learnt.
    pub(crate) fn history(&self) -> &History
        ensures board { result.now.book ≡ self.now.board }
        ensures posts { result.now.log ≡ self.now.posts }
    {
        self.kept.history()
    }

    /// Of the posts of two viewers of a board one list begins the other, whether they learnt anything or not. It does nothing
    /// when it runs.
    pub fn agree(&self, other: &Viewer)
        requires board { other.now.board ≡ self.now.board }
        ensures { OneBegins self.now.posts other.now.posts }
    {
        agree(self.history(), other.history());
    }

    /// Afterwards the viewer has seen what was posted before the `tell`. It waits for nobody and takes no memory.
    pub fn learn(&mut self, told: Told)
        requires board { told.board ≡ self.old.board }
        ensures board { self.new.board ≡ self.old.board }
        ensures own { IsPrefix self.old.posts self.new.posts }
        ensures told { IsPrefix told.posts self.new.posts }
        ensures services { services_in self.new.posts ≡ services_in self.old.posts }
    {
        let Told { note } = told;
        self.kept.take_in(&note);
    }
}
