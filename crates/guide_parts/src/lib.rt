//! What a receiver shows of the tables that it heard, whole or not, and its text (ISO/IEC 13818-1,
//! 2.4.4; EN 300 468, 5.2).
//!
//! `parts_heard` gives exactly the needs that are not met, and a screen of all that is held: of
//! each sub-table the content that was completed last, or else the sections of its run. Of other
//! streams it shows what was heard whole. `specs/Parts.antt` says what is held, and
//! `specs/PartScreen.antt` what is shown of it; worked screens stand in `specs/Rows.antt`.
//!
//! [`print_parts`] appends exactly the text that the definitions say (`part_text`), or nothing
//! where memory runs out, and [`print_parts_with`] also with details: a line `wanting` for each need, then the lines of what was heard, in the
//! order of a whole guide, then `end`. `specs/PartTexts.antt` has the table of the lines. With
//! nothing wanting a whole screen has the text of a guide (`whole_text_is_listen`).
//!
//! The PAT, the NIT and the SDT that a receiver names were heard whole, and the SDT is that of the
//! PAT's stream (`named_tables_are_whole`). Two laws ask that of events that the SDT says are not
//! sent nothing is held but whole tables, and no table of a schedule without the first one. Then
//! the screen of parts is the same where a whole screen is heard (`partial_is_listen`), and the
//! guide of parts is the same, with the same text, where a receiver has a whole guide
//! (`whole_guides_are_the_same`). Where the SDT says that all are sent, nothing more is asked. This
//! holds of any receiver, and of a strict one that started afresh any number of times.
#![tactic(auto)]

mod guide;
mod heard;
mod heard_laws;
mod keys;
mod laws;
mod listed;
mod part_screen;
mod screen;
mod service;
mod services;
mod tables;
mod text_laws;

pub use guide::{print_parts, print_parts_with};
pub use heard::parts_heard;
pub use heard_laws::{named_tables_are_whole, whole_guides_are_the_same};
pub use laws::partial_is_listen;
pub use part_screen::{PartGuide, PartNetwork, PartScreen, PartService, PartServices};
pub use text_laws::whole_text_is_listen;
