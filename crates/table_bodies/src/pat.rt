// The program association table.
ghost use Rattle.std.specs.Prelude.{◌≡◌, ◌++◌, is_some, IfOk, OnOk};
ghost use Rattle.std.specs.List.{All};
ghost use Rattle.table_bodies.specs.Pat.{HasPid, pat_body, pat_in, program_bytes};

use si_base::{Bytes, Copies, Items};
use std::alloc::{AllocError, Global};

/// A program and the PID of its program map table; program 0 has that of the network information table (13 bits).
#[derive(Clone, Copy, PartialEq, Eq)]
pub struct PatEntry {
    pub program: u16,
    pub pid: u16,
}

/// Programs in the order in which they stand.
pub type PatEntries = Items<PatEntry>;

impl Copies for PatEntry {
    fn copy(&self) -> Result<PatEntry, AllocError> {
        Ok(*self)
    }
}

/// The body of a section of the program association table (ISO/IEC 13818-1, 2.4.4.3). It needs PIDs below 8,192.
pub fn write_pat(alloc: Global, entries: &[PatEntry]) -> Result<Bytes, AllocError>
    requires { All HasPid entries.now }
    ensures { IfOk result (λ body. body ≡ pat_body entries.now) }
{
    let mut out = Vec::new(alloc);
    for entry in entries {
        put_entry(entry, &mut out)?;
    }
    Ok(Items::of(out))
}

// Appends an entry; want of memory may leave a part of it.
fn put_entry(entry: &PatEntry, out: &mut Vec<u8>) -> Result<(), AllocError>
    requires { HasPid entry.now }
    ensures { OnOk result (out.new.items ≡ out.old.items ++ program_bytes entry.now) }
{
    out.extend_from_slice(&entry.program.to_be_bytes())?;
    out.extend_from_slice(&(0xE000 + entry.pid).to_be_bytes())
}

/// The programs of the body of a section of the program association table, or `None` exactly where it ends within an entry. Reserved
/// bits may have any value (ISO/IEC 13818-1, 2.4.4.3).
pub fn read_pat(alloc: Global, body: &[u8]) -> Result<Option<PatEntries>, AllocError>
    ensures { IfOk result (λ read. read ≡ pat_in body.now) }
{
    let mut entries = Vec::with_capacity(alloc, body.len() / 4)?;
    let mut rest = body;
    while let [a, b, c, d, behind @ ..] = rest {
        entries.push(PatEntry {
            program: 256 * u16::from(*a) + u16::from(*b),
            pid: (256 * u16::from(*c) + u16::from(*d)) % 8192,
        })?;
        rest = behind;
    }
    if !rest.is_empty() {
        return Ok(None);
    }
    Ok(Some(Items::of(entries)))
}

/// Whether these bytes are the body of a section of the program association table, as `read_pat` reads it (ISO/IEC 13818-1, 2.4.4.3).
/// It takes no memory.
pub fn is_pat_body(body: &[u8]) -> bool
    ensures { result ≡ is_some (pat_in body.now) }
{
    body.len() % 4 == 0
}
