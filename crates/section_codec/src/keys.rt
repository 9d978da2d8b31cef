// The keys of sections.
ghost use Rattle.std.specs.Prelude.{◌≡◌, ◌+◌, ◌*◌, ◌<◌, length, slice_index};
ghost use Rattle.si_base.specs.Fields.{two_at};
ghost use Rattle.section_codec.specs.Keys.{key_in, is_listed, eit_numbers_in};
ghost use Rattle.section_codec.specs.Segments.{segment_last_in};

use crate::section::LongHeader;
use crate::table::{Key, Naming};
use crate::tables::naming_of;

/// The key of a section that was heard on this PID, or None where the table of tables has no sub-tables of its
/// table_id there, or the body is too short for the key's fields (EN 300 468, 5.1.1 and 5.1.3).
pub fn key_of(pid: u16, header: &LongHeader, body: &[u8]) -> Option<Key>
    ensures { result ≡ key_in pid header.now body.now }
{
    let (stream, network) = match naming_of(pid, header.table)? {
        Naming::Extension => (0, 0),
        Naming::Network if body.len() >= 2 => (0, two_at(body, 0)),
        Naming::Stream if body.len() >= 4 => (two_at(body, 0), two_at(body, 2)),
        _ => return None,
    };
    Some(Key {
        pid,
        table: header.table,
        ext: header.ext,
        stream,
        network,
    })
}

/// Whether a sub-table on its PID can have this key: its table is heard there, and a field that does not name sub-tables of that
/// table is 0 (EN 300 468, 5.1.1 and 5.1.3).
pub fn is_listed(key: &Key) -> bool
    ensures { result ≡ is_listed key.now }
{
    match naming_of(key.pid, key.table) {
        Some(Naming::Extension) => key.stream == 0 && key.network == 0,
        Some(Naming::Network) => key.stream == 0,
        Some(Naming::Stream) => true,
        None => false,
    }
}

/// segment_last_section_number and last_table_id of the body of an EIT section, or None where it has
/// fewer than 6 bytes (EN 300 468, 5.2.4).
pub fn eit_numbers(_header: &LongHeader, body: &[u8]) -> Option<(u8, u8)>
    ensures { result ≡ eit_numbers_in body.now }
{
    if body.len() < 6 {
        return None;
    }
    Some((body[4], body[5]))
}

/// segment_last_section_number of the section of an EIT with this number and body, or None where the body has
/// fewer than 6 bytes or tells a number of another segment than the section's own (EN 300 468, 5.2.4). A segment
/// has eight numbers.
pub fn segment_last(header: &LongHeader, body: &[u8]) -> Option<u8>
    ensures { result ≡ segment_last_in header.now.number body.now }
{
    let (last, _) = eit_numbers(header, body)?;
    if last / 8 == header.number / 8 {
        Some(last)
    } else {
        None
    }
}

// The field of 16 bits at a place.
fn two_at(bytes: &[u8], i: usize) -> u16
    requires { i + 1 < length bytes.now }
    ensures { result ≡ two_at i bytes.now }
{
    u16::from_be_bytes([bytes[i], bytes[i + 1]])
}
