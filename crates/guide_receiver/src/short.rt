// Sections in the short form.
ghost use Rattle.std.specs.Prelude.{◌≡◌, ◌==◌, if◌then◌else◌, Some, None, IfOk};
ghost use Rattle.section_codec.specs.Section.{section_in};
ghost use Rattle.guide_receiver.specs.Latest.{short_by};

use section_codec::{BadSection, Section, read_section};
use si_base::Bytes;
use std::alloc::{AllocError, Global};
use ts_demux::RawSection;

// The body of a section, where it is one of this table in the short form.
pub(crate) fn short_body(
    alloc: Global,
    raw: &RawSection,
    table: u8,
) -> Result<Option<Bytes>, AllocError>
    ensures { IfOk result (λ body. body ≡ short_by table (section_in raw.now.bytes)) }
{
    match read_section(alloc, raw.bytes.as_slice()) {
        Ok(Section::Short(told, body)) => Ok(of_table(told, table, body)),
        Ok(Section::Long(_, _)) => Ok(None),
        Err(BadSection::Memory) => Err(AllocError),
        Err(BadSection::Length) => Ok(None),
        Err(BadSection::Crc(_, _)) => Ok(None),
        Err(BadSection::Syntax) => Ok(None),
    }
}

fn of_table(told: u8, table: u8, body: Bytes) -> Option<Bytes>
    ensures { result ≡ (if told == table then Some body else None) }
{
    if told == table { Some(body) } else { None }
}
