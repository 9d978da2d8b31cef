//! A board of what is on now and next, for viewers that read while another thread posts guides.
//!
//! `board` opens a board with its first guide, and gives its writer and the viewers;
//! `BoardWriter::post` adds a guide. `Viewer::now_next` gives the number of one post with the
//! present and following event of a service, or says that its guide has no such service. That post
//! is not older than any that this viewer saw or learnt before (`seen`, `answer`, `served`).
//! `BoardWriter::tell` gives a `Told` with what was posted; a viewer that learns it sees no older
//! post (`Viewer::learn`). Of the posts of two viewers of one board one list begins the other, and so
//! it is with a viewer and the writer, whether a viewer learnt anything or not: a call without cost
//! says so (`Viewer::agree`, `BoardWriter::agree`). `now_next` and `learn` neither wait nor take
//! memory. The writer is ended by `close`, and the viewers go on.
//!
//! Tested in `board_rows`: a viewer that learnt nothing reads what another thread posted; a viewer
//! whose writer is closed.
//!
//! Not promised: that a wait ends, and that a viewer knows no post beyond those of the writer.
#![tactic(auto)]

mod kept;
mod lines;
mod note;
mod post;
mod told;
mod viewer;
mod writer;

pub use lines::{NoService, NowNext, Slot};
pub use post::Post;
pub use told::Told;
pub use viewer::{Viewer, Viewers};
pub use writer::{BoardWriter, board};
