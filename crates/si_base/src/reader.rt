// Reading bytes from the front.
ghost use Rattle.std.specs.Prelude.{◌≡◌, ◌<◌, ◌↔◌, length, take, drop, IsNone, IfNone, IfSome, OnSome};

use std::marker::Model;

/// A reader of bytes from their front. Contracts see it as the bytes that are left.
#[derive(Drop)]
pub struct Reader<'a> {
    rest: &'a [u8],
}

impl<'a> Model for Reader<'a> {
    ghost use Rattle.std.specs.Prelude.{List, ℕ};

    ghost Value = { List ℕ };

    ghost view = { λ r. r.rest.now };
}

impl<'a> Reader<'a> {
    /// A reader of these bytes. It takes no memory.
    pub fn open(bytes: &'a [u8]) -> Reader<'a>
        ensures { result ≡ bytes.now }
    {
        Reader { rest: bytes }
    }

    /// The next `n` bytes. Where fewer are left it answers `None` and takes nothing. It takes no memory.
    pub fn take(&mut self, n: usize) -> Option<&'a [u8]>
        ensures none { IsNone result ↔ (length self.old < n) }
        ensures front { IfSome result (λ front. front.now ≡ take n self.old) }
        ensures left { OnSome result (self.new ≡ drop n self.old) }
        ensures kept { IfNone result (self.new ≡ self.old) }
    {
        if self.rest.len() < n {
            return None;
        }
        let (front, left) = self.rest.split_at(n);
        self.rest = left;
        Some(front)
    }
}
