// The text of a comment.
ghost use Rattle.std.specs.Prelude.{◌≡◌, ◌++◌, OnOk, codes, decimal};
ghost use Rattle.script_notes.specs.Whys.{CanBeSaid};
ghost use Rattle.script_notes.specs.Pieces.{comment_line};
ghost use Rattle.script_notes.specs.Whole.{with_end};

use crate::{Why, put_why};
use si_base::put_number;
use std::alloc::{AllocError, Global};

/// Appends the comment on a line: its number from 1, and why it is at fault. Want of memory may leave a part of it.
pub fn put_comment(
    alloc: Global,
    number: u64,
    why: &Why,
    out: &mut Vec<u8>,
) -> Result<(), AllocError>
    requires { CanBeSaid why.now }
    ensures { OnOk result (out.new.items ≡ out.old.items ++ with_end (comment_line number why.now)) }
{
    out.extend_from_slice(b"# line ")?;
    put_number(alloc, out, number)?;
    out.extend_from_slice(b": ")?;
    put_why(alloc, why, out)?;
    out.extend_from_slice(b"\n")
}
