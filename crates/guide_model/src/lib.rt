//! The records of a guide, texts and their coded form, and genres and descriptors as text (EN 300 468,
//! 5.2, 6.2 and annex A).
//!
//! The records are events, services, and what a receiver shows of a multiplex (EN 300 468, 5.2 and
//! 6.2). A list in these records is an `Items`, which contracts see as its elements. A copy of a
//! guide equals its source (`Guide::copy`).
//!
//! A `Txt` has no control character; `Txt::of` takes exactly such texts. In descriptors texts are
//! coded (EN 300 468, annex A). `encode_text` and `append_text` give the coded bytes, and
//! `coded_len` their number. `decode_text` gives exactly what bytes are shown as. An encoded text
//! decodes to itself (`coded_texts_decode`). `cut_len` gives the longest prefix that one descriptor
//! takes (`size`, `whole`, `fits`, `longest`). The pieces of a long text join to that text
//! (`pieces_join`). A `Txt` knows whether it is plain, so its coded length is found without reading
//! it again, and `plain_cut_len` cuts it.
//!
//! [`put_genres`] appends exactly the text of genres that the definition says, for fields of a
//! journal and of a printed guide. [`put_descriptor`] and [`put_descriptors`] do so for descriptors
//! in hexadecimal digits. Where memory runs out a part of a text may have been appended.
#![tactic(auto)]

mod coding;
mod cutting;
mod decoding;
mod descriptor;
mod descriptor_text;
mod event;
mod genres;
mod guide;
mod offset;
mod screen;
mod shown;
mod stored;
mod stream;
mod txt;

pub use coding::{append_text, coded_len, encode_text, is_all_plain, is_plain_byte};
pub use cutting::{cut_len, pieces_join, plain_cut_len};
pub use decoding::{coded_texts_decode, decode_text};
pub use descriptor::{RawDesc, RawDescs};
pub use descriptor_text::{put_descriptor, put_descriptors};
pub use event::{Event, Events, Genre, Genres, Rating};
pub use genres::put_genres;
pub use guide::{Guide, ServiceGuide, ServiceGuides};
pub use offset::{Offset, Offsets};
pub use screen::{
    Screen, ScreenComponent, ScreenComponents, ScreenEvent, ScreenEvents, ScreenOther,
    ScreenOthers, ScreenRemote, ScreenRemotes, ScreenService, ScreenServices,
};
pub use shown::Shown;
pub use stream::{Cable, Component, Components};
pub use txt::{Txt, has_control};
