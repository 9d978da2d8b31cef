// What the writer tells a viewer.
ghost use Rattle.std.specs.Prelude.{◌≡◌};

use crate::note::Note;
use std::marker::Model;

/// The last post at the time of a `tell`, for a viewer to learn. Contracts see it as its board and the posts up to then.
#[derive(Drop)]
pub struct Told {
    pub(crate) note: Note,
}

impl Model for Told {
    ghost use Rattle.guide_board.specs.Posts.{Sight};

    ghost Value = { Sight };

    ghost view = { λ told. told.note };
}
