// The contents that a receiver has.
ghost use Rattle.std.specs.Prelude.{◌≡◌, ℕ, Option, is_some};
ghost use Rattle.section_codec.specs.declared.table.Key.{Key};
ghost use Rattle.section_codec.specs.Contents.{Content};
ghost use Rattle.guide_screen.specs.View.{sections, sections_at, pmt_key, eit_key};
ghost use Rattle.guide_screen.specs.Holding.{KeepsContents};

use section_codec::{Key, NumberedBody};
use si_time::Moment;
use sub_collect::Collector;

/// What a receiver completed last beside the contents: the keys of the PAT and of the NIT, that of the SDT of the PAT's
/// transport_stream_id, and the last moment that a TDT told (ISO/IEC 13818-1, 2.4.4.3; EN 300 468, 5.2.1, 5.2.3 and 5.2.5).
#[derive(Clone, Copy)]
pub struct Latest {
    pub pat: Option<Key>,
    pub nit: Option<Key>,
    pub sdt: Option<Key>,
    pub clock: Option<Moment>,
}

// Whether a key was completed.
pub(crate) fn is_completed(contents: &Collector, key: Key) -> bool
    ensures { (content : Key → Option Content) → KeepsContents contents.now content
        → result ≡ is_some (content key) }
{
    contents.latest(key).is_some()
}

// The sections of a key; none where it was not completed.
pub(crate) fn sections_of(contents: &Collector, key: Key) -> &[NumberedBody]
    ensures { (content : Key → Option Content) → KeepsContents contents.now content
        → result.now ≡ sections (content key) }
{
    match contents.latest(key) {
        Some(done) => done.sections.as_slice(),
        None => &[],
    }
}

// The sections of a key, where there is one.
pub(crate) fn sections_at(contents: &Collector, key: Option<Key>) -> &[NumberedBody]
    ensures { (content : Key → Option Content) → KeepsContents contents.now content
        → result.now ≡ sections_at content key }
{
    match key {
        Some(key) => sections_of(contents, key),
        None => &[],
    }
}

/// The key of the PMT of a program on its PID (EN 300 468, 5.1.3).
pub fn pmt_key(pid: u16, program: u16) -> Key
    ensures { result ≡ pmt_key pid program }
{
    Key {
        pid,
        table: 0x02,
        ext: program,
        stream: 0,
        network: 0,
    }
}

/// The key of a table of events of a service, of the stream and the network of this SDT.
pub fn eit_key(sdt: Key, table: u8, service: u16) -> Key
    ensures { result ≡ eit_key sdt table service }
{
    Key {
        pid: 0x12,
        table,
        ext: service,
        stream: sdt.ext,
        network: sdt.network,
    }
}
