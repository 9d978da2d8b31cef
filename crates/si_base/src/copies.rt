// Exact copies.
ghost use Rattle.std.specs.Prelude.{◌≡◌, IfOk};

use crate::items::Items;
use std::alloc::AllocError;

/// What can be copied: the copy equals its source.
pub trait Copies: Sized + Drop {
    /// A copy.
    fn copy(&self) -> Result<Self, AllocError>
        ensures { IfOk result (λ copy. copy ≡ self.now) };
}

impl<T: Copies> Items<T> {
    /// A copy of each element, in order.
    pub fn copy(&self) -> Result<Items<T>, AllocError>
        ensures { IfOk result (λ copy. copy ≡ self.now) }
    {
        let mut items = Vec::with_capacity(self.allocator(), self.items.len())?;
        for item in &self.items {
            items.push(item.copy()?)?;
        }
        Ok(Items { items })
    }
}
