// Descriptors.
use si_base::{Bytes, Copies, Items};
use std::alloc::AllocError;

/// A descriptor: descriptor_tag and the bytes after descriptor_length (EN 300 468, 6.1).
#[derive(Drop)]
pub struct RawDesc {
    pub tag: u8,
    pub body: Bytes,
}

/// Descriptors in the order in which they stand.
pub type RawDescs = Items<RawDesc>;

impl Copies for RawDesc {
    fn copy(&self) -> Result<RawDesc, AllocError> {
        let body = Vec::from_slice(self.body.allocator(), self.body.as_slice())?;
        Ok(RawDesc {
            tag: self.tag,
            body: Items::of(body),
        })
    }
}
