//! The text of a guide that was heard, as `listen` and `live` print it.
//!
//! [`print_heard`] appends exactly the text that the definitions say (`guide_text`), or nothing
//! where memory runs out; [`print_heard_with`] also with details, which are the lines of the
//! descriptors that no other line shows whole, in digits that read back (`details_read_back`). A line is a word and fields with tabs between. `specs/Fields.antt` says
//! how each kind of field is written, and `specs/Guides.antt` has the table of the lines. A moment
//! that 16 bits of days cannot hold, or a duration of 100 hours or more, is written as an empty
//! field. Not promised: that no heard guide has one.
#![tactic(auto)]

mod cable;
mod details;
mod event;
mod field;
mod guide;
mod laws;
mod local;
mod need;
mod others;
mod screen;
mod service;

pub use details::put_details;
pub use event::{put_events, put_some_event};
pub use field::{put_decimal, put_field, put_optional, put_shown};
pub use guide::{print_heard, print_heard_with};
pub use laws::details_read_back;
pub use local::put_offsets;
pub use need::put_needs;
pub use others::put_others;
pub use screen::{put_clock, put_some_cable};
pub use service::{put_components, put_service_details};
