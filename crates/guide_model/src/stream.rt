// What a multiplex sends beside its events.
use crate::descriptor::RawDescs;
use si_base::{Copies, Items};
use std::alloc::AllocError;

/// How a multiplex is sent by cable (EN 300 468, 6.2.13.1): frequency in units of 100 Hz (8 decimal digits), modulation,
/// symbol rate in units of 100 symbols a second (7 decimal digits), outer and inner error protection (4 bits each).
#[derive(Clone, Copy, PartialEq, Eq)]
pub struct Cable {
    pub frequency: u32,
    pub modulation: u8,
    pub symbol_rate: u32,
    pub fec_outer: u8,
    pub fec_inner: u8,
}

/// An elementary stream of a service (ISO/IEC 13818-1, 2.4.4.8): its stream_type, its PID, where it is given its
/// language (three letters), and its further descriptors.
#[derive(Drop)]
pub struct Component {
    pub stream_type: u8,
    pub pid: u16,
    pub language: Option<[u8; 3]>,
    pub descriptors: RawDescs,
}

/// Components of a service, in the order in which they are given.
pub type Components = Items<Component>;

impl Copies for Component {
    fn copy(&self) -> Result<Component, AllocError> {
        Ok(Component {
            stream_type: self.stream_type,
            pid: self.pid,
            language: self.language,
            descriptors: self.descriptors.copy()?,
        })
    }
}
