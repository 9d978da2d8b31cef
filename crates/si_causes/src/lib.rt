//! What the program asks of the outside: sources, sinks, files, and the lines of a source.
//!
//! A [`Source`] gives bytes, a [`Sink`] takes bytes, an [`Opener`] gives a source for a path. Each
//! counts its faults: a call gives [`Failed`] only where that count rose or stands at its last
//! value, 2^64 - 1. A read that succeeds leaves it as it was. Contracts see the bytes that are left
//! in a source and that a sink took where these are in memory; of a file they see nothing.
//! [`LineReader::next`] gives the lines of a source, however its bytes are cut into pieces (`lines`,
//! `came`). It stops at the end or after 67,108,864 bytes, and stays stopped (`limit`, `sticky`); a
//! call that finds a whole line in the buffer takes nothing from the source (`lazy`). With any
//! answer but `Failed` the source's count of faults is as it was (`quiet`). [`write_all`] writes all
//! bytes or gives the failure (`done`, `failed`, `cause`). Sources, sinks and openers in memory do
//! exactly what their definitions say. A [`Gate`] lets a test hold the threads of a run in an order
//! of its own.
//!
//! Tested in `ground_rows`: large reads, each byte searched once.
#![tactic(auto)]

mod causes;
mod files;
mod gate;
mod gather;
mod line;
mod memory;
mod opener;
mod read_buffer;
mod reader;
mod stop;

pub use causes::{Failed, Sink, Source, write_all};
pub use files::MemOpener;
pub use gate::{Gate, OpenGate, Place};
pub use memory::{MemSink, MemSource, NeverFails};
pub use opener::Opener;
pub use read_buffer::ReadBuffer;
pub use reader::LineReader;
pub use stop::ReadStop;
