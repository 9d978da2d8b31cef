// Lists that contracts see as lists.
ghost use Rattle.std.specs.Prelude.{◌≡◌, ◌∷◌, ◌++◌, [], length, IfOk, OnOk, OnErr, IfErr, List, ◌==◌};

use std::alloc::{AllocError, AllocFailed, Global};
use std::marker::Model;

/// A list over a `Vec`, which contracts see as the list of its elements alone: two lists are equal
/// where their elements are, whatever room each has. It keeps the allocator of its `Vec`.
#[derive(Drop)]
pub struct Items<T> {
    /// The elements, in a `Vec` of which contracts see the elements alone.
    pub items: Vec<T>,
}

/// A list of bytes.
pub type Bytes = Items<u8>;

impl<T> Model for Items<T> {
    ghost use Rattle.std.specs.Prelude.{List};

    ghost Value = { List T };

    ghost view = { λ a. a.items.items };
}

impl<T> Items<T> {
    /// The empty list. It takes no memory.
    pub fn new(alloc: Global) -> Items<T>
        ensures { result ≡ [] }
    {
        Items {
            items: Vec::new(alloc),
        }
    }

    /// The list of these elements. It takes no memory.
    pub fn of(items: Vec<T>) -> Items<T>
        ensures { result ≡ items.items }
    {
        Items { items }
    }

    /// The elements. It takes no memory.
    pub fn into_vec(self) -> Vec<T>
        ensures { result.items ≡ self }
    {
        self.items
    }

    /// The elements.
    pub fn as_slice(&self) -> &[T]
        ensures { result.now ≡ self.now }
    {
        self.items.as_slice()
    }

    /// The number of elements.
    pub fn len(&self) -> usize
        ensures { result ≡ length self.now }
    {
        self.items.len()
    }

    /// Whether there is no element.
    pub fn is_empty(&self) -> bool
        ensures { result ≡ (length self.now == 0) }
    {
        self.items.is_empty()
    }

    /// The allocator of the list.
    pub fn allocator(&self) -> Global {
        *self.items.allocator()
    }

    /// Appends an element; want of memory gives it back and changes nothing.
    pub fn push(&mut self, item: T) -> Result<(), AllocFailed<T>>
        ensures ok { OnOk result (self.new ≡ self.old ++ item ∷ []) }
        ensures memory { OnErr result (self.new ≡ self.old) }
        ensures value_returned { IfErr result (λ y. y.value ≡ item) }
    {
        self.items.push(item)
    }
}
