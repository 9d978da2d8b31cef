//! The words of a command line, and the command that they spell.
//!
//! [`parse_words`] gives exactly the command that the words spell (`command_of` of
//! `specs/Grammar.antt`), within its limits. `Usage` comes exactly where they spell none, and
//! `Memory` only where they spell one. The grammar decides by itself, without taking memory; clap
//! then splits the options.
//!
//! Tested by whole runs: words that are no command, options in each spelling.
//!
//! Not promised: that `Memory` comes only where memory runs out.
#![tactic(auto)]

mod audit;
mod command;
mod front;
mod listen;
mod matches;
mod play;
mod setting;
mod uses;

pub use audit::AuditWords;
pub use command::{Command, LiveWords, Paths, WordsStop, parse_words};
pub use listen::ListenWords;
pub use play::PlayWords;
