// The sections that count.
ghost use Rattle.std.specs.Prelude.{◌≡◌, ◌&&◌, IfOk, IfSome, option_map};
ghost use Rattle.section_codec.specs.Section.{long_body};
ghost use Rattle.section_codec.specs.Segments.{segment_last_in};
ghost use Rattle.sub_collect.specs.Runs.{counted};
ghost use Rattle.guide_receiver.specs.Counting.{is_last_within, is_event_body, is_body_of_table, counted_in};

use section_codec::{
    BadSection, Key, LongHeader, Section, is_counted, is_eit, key_of, read_section, segment_last,
};
use si_base::Bytes;
use std::alloc::{AllocError, Global};
use table_bodies::{is_eit_body, is_nit_body, is_pat_body, is_pmt_body, is_sdt_body};
use ts_demux::RawSection;

/// A section that counts: its key, its header, and what stands between the header and the CRC.
#[derive(Drop)]
pub struct CountedSection {
    pub key: Key,
    pub header: LongHeader,
    pub body: Bytes,
}

/// The section that counts, or `None` exactly where this one does not: it is no section in the long form that is in force, its table is
/// none of those that count on its PID, or its body is none of its table (EN 300 468, 5.1.1 and 5.1.3).
pub fn counted_section(
    alloc: Global,
    raw: &RawSection,
) -> Result<Option<CountedSection>, AllocError>
    ensures counts { IfOk result (λ found. option_map (λ s. counted s.key s.header s.body) found ≡ counted_in raw.now) }
    ensures body { IfOk result (λ found. IfSome found (λ s. s.body ≡ long_body raw.now.bytes)) }
{
    let (header, body) = match read_section(alloc, raw.bytes.as_slice()) {
        Ok(Section::Long(header, body)) => (header, body),
        Err(BadSection::Memory) => return Err(AllocError),
        _ => return Ok(None),
    };
    if !header.current
        || !is_counted(raw.pid, header.table)
        || !is_body_of_table(&header, body.as_slice())
    {
        return Ok(None);
    }
    match key_of(raw.pid, &header, body.as_slice()) {
        Some(key) => Ok(Some(CountedSection { key, header, body })),
        None => Ok(None),
    }
}

// Whether the body is one of its table. It is looked at and not read, which takes no memory.
fn is_body_of_table(header: &LongHeader, body: &[u8]) -> bool
    ensures { result ≡ is_body_of_table header.now body.now }
{
    if is_eit(header.table) {
        return is_event_body(header, body);
    }
    match header.table {
        0x00 => is_pat_body(body),
        0x02 => is_pmt_body(body),
        0x40 => is_nit_body(body),
        0x42 | 0x46 => is_sdt_body(body),
        _ => false,
    }
}

// Whether the body is one of event information, and its numbers are of the section's segment and table.
fn is_event_body(header: &LongHeader, body: &[u8]) -> bool
    ensures { result ≡ is_event_body header.now body.now }
{
    is_eit_body(body) && is_last_within(segment_last(header, body), header.last)
}

fn is_last_within(segment_last: Option<u8>, last: u8) -> bool
    ensures { result ≡ is_last_within segment_last last }
{
    match segment_last {
        Some(number) => number <= last,
        None => false,
    }
}
