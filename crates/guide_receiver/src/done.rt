// Completions, and their lines.
ghost use Rattle.std.specs.Prelude.{◌≡◌, ◌++◌, IfOk, OnOk, OnErr, flat_map};
ghost use Rattle.guide_receiver.specs.Dones.{at_packet};
ghost use Rattle.guide_receiver.specs.Texts.{field_text, done_line};

use section_codec::Key;
use si_base::{Items, put_number};
use std::alloc::{AllocError, Global};

/// A completion that is shown: the key of the sub-table, and the version_number that was heard whole.
#[derive(Clone, Copy, PartialEq, Eq)]
pub struct DoneKey {
    pub key: Key,
    pub version: u8,
}

/// The completions that a packet shows, in order.
pub type Dones = Items<DoneKey>;

// Appends a tab and a number.
fn put_field(alloc: Global, out: &mut Vec<u8>, n: u64) -> Result<(), AllocError>
    ensures { OnOk result (out.new.items ≡ out.old.items ++ field_text n) }
{
    out.extend_from_slice(b"\t")?;
    put_number(alloc, out, n)
}

// Appends these numbers, each behind a tab.
fn put_fields(alloc: Global, out: &mut Vec<u8>, fields: &[u64]) -> Result<(), AllocError>
    ensures { OnOk result (out.new.items ≡ out.old.items ++ flat_map field_text fields.now) }
{
    for field in fields {
        put_field(alloc, out, *field)?;
    }
    Ok(())
}

// The line of a completion in a list of its own.
fn line_of(alloc: Global, packet: u64, done: DoneKey) -> Result<Vec<u8>, AllocError>
    ensures { IfOk result (λ line. line.items ≡ done_line (at_packet packet done)) }
{
    let fields = [
        packet,
        u64::from(done.key.pid),
        u64::from(done.key.table),
        u64::from(done.key.ext),
        u64::from(done.key.stream),
        u64::from(done.key.network),
        u64::from(done.version),
    ];
    let mut out = Vec::from_slice(alloc, b"done")?;
    put_fields(alloc, &mut out, &fields)?;
    out.extend_from_slice(b"\n")?;
    Ok(out)
}

/// Appends the line of a completion: `done`, the number of the packet in which its last section ended, PID, table_id, the
/// key's table_id_extension, transport_stream_id and original_network_id, and the version_number, with tabs between. Want of
/// memory leaves `out` with what it had.
pub fn write_done(
    alloc: Global,
    packet: u64,
    done: DoneKey,
    out: &mut Vec<u8>,
) -> Result<(), AllocError>
    ensures line { OnOk result (out.new.items ≡ out.old.items ++ done_line (at_packet packet done)) }
    ensures kept { OnErr result (out.new.items ≡ out.old.items) }
{
    let line = line_of(alloc, packet, done)?;
    out.extend_from_slice(&line)
}
