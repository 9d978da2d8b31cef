// The keys of the tables that come once, and the one that names the own stream.
ghost use Rattle.std.specs.Prelude.{◌≡◌, find};
ghost use Rattle.guide_parts.specs.Parts.{least_of, heard_key, is_own_eit, is_home_eit, sdt_beside, home_by, stream_by};

use section_codec::Key;

// The least of these keys that has this table_id.
fn least_of(table: u8, keys: &[Key]) -> Option<Key>
    ensures { result ≡ least_of table keys.now }
{
    for key in keys {
        if key.table == table {
            return Some(*key);
        }
    }
    None
}

// The key that was completed last, or else the least that had a section.
pub(crate) fn heard_key(completed: Option<Key>, table: u8, keys: &[Key]) -> Option<Key>
    ensures { result ≡ heard_key completed table keys.now }
{
    match completed {
        Some(key) => Some(key),
        None => least_of(table, keys),
    }
}

// Whether a table has event information of this multiplex (EN 300 468, 5.2.4).
pub(crate) fn is_own_eit(table: u8) -> bool
    ensures { result ≡ is_own_eit table }
{
    table == 0x4E || (0x50 <= table && table <= 0x5F)
}

// Whether a key is one of event information of the PAT's stream, or of whatever stream without a PAT.
fn is_home_eit(pat: Option<Key>, key: Key) -> bool
    ensures { result ≡ is_home_eit pat key }
{
    match pat {
        Some(pat) => is_own_eit(key.table) && key.stream == pat.ext,
        None => is_own_eit(key.table),
    }
}

// The first of these keys that is one of event information of the own stream.
fn first_eit(pat: Option<Key>, keys: &[Key]) -> Option<Key>
    ensures { result ≡ find (is_home_eit pat) keys.now }
{
    for key in keys {
        if is_home_eit(pat, *key) {
            return Some(*key);
        }
    }
    None
}

// The key that the SDT has of the stream and the network that an EIT names.
fn sdt_beside(eit: Key) -> Key
    ensures { result ≡ sdt_beside eit }
{
    Key {
        pid: 0x0011,
        table: 0x42,
        ext: eit.stream,
        stream: 0,
        network: eit.network,
    }
}

// The key that names the own stream and its network.
pub(crate) fn home_by(sdt: Option<Key>, pat: Option<Key>, keys: &[Key]) -> Option<Key>
    ensures { result ≡ home_by sdt pat keys.now }
{
    match sdt {
        Some(sdt) => Some(sdt),
        None => Some(sdt_beside(first_eit(pat, keys)?)),
    }
}

// The own transport_stream_id.
pub(crate) fn stream_by(home: Option<Key>, pat: Option<Key>) -> Option<u16>
    ensures { result ≡ stream_by home pat }
{
    match home {
        Some(home) => Some(home.ext),
        None => Some(pat?.ext),
    }
}
