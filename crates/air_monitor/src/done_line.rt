// Completions with the packet that showed them.
ghost use Rattle.std.specs.Prelude.{◌≡◌, ◌++◌, ◌∷◌, [], OnOk, OnErr};
ghost use Rattle.air_monitor.specs.Heard.{AppendsFrontOf, line_at, lines_at};

use guide_receiver::DoneKey;
use section_codec::Key;
use si_base::Items;
use std::alloc::AllocError;

/// A completion that is shown: the number of the packet that showed it, from the start of the air, the key of the sub-table,
/// and the version_number that was heard whole.
#[derive(Clone, Copy, PartialEq, Eq)]
pub struct DoneLine {
    pub packet: u64,
    pub key: Key,
    pub version: u8,
}

/// Completions, in order.
pub type DoneLines = Items<DoneLine>;

fn line_at(packet: u64, done: DoneKey) -> DoneLine
    ensures { result ≡ line_at packet done }
{
    DoneLine {
        packet,
        key: done.key,
        version: done.version,
    }
}

// Appends the completions that this packet showed; want of memory leaves a front of them.
pub(crate) fn push_lines(
    lines: &mut DoneLines,
    packet: u64,
    shown: &[DoneKey],
) -> Result<(), AllocError>
    ensures ok { OnOk result (lines.new ≡ lines.old ++ lines_at packet shown.now) }
    ensures memory { OnErr result (AppendsFrontOf lines.old lines.new (lines_at packet shown.now)) }
{
    for done in shown {
        push_line(lines, line_at(packet, *done))?;
    }
    Ok(())
}

fn push_line(lines: &mut DoneLines, line: DoneLine) -> Result<(), AllocError>
    ensures ok { OnOk result (lines.new ≡ lines.old ++ line ∷ []) }
    ensures memory { OnErr result (lines.new ≡ lines.old) }
{
    match lines.push(line) {
        Ok(()) => Ok(()),
        Err(_) => Err(AllocError),
    }
}
