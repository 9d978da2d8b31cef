// Appending to a buffer that has room.
ghost use Rattle.std.specs.Prelude.{length};
ghost use Rattle.si_base.specs.Room.{Appended, HasRoom};

/// Appends bytes to a buffer that has room for them, so that it takes no memory.
pub fn put(out: &mut Vec<u8>, bytes: &[u8])
    requires room { HasRoom out.old (length bytes.now) }
    ensures { Appended out.old out.new bytes.now }
{
    out.extend_from_slice(bytes).unwrap();
}
