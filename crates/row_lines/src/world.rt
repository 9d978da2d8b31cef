// What runs of threads ask of a system, and how answers are written.
use std::marker::Sync;
use std::sync::Wait;
use std::thread::Threads;

/// A system that has threads which may wait.
pub trait World: Threads + Wait + Sync {}

impl<W: Threads + Wait + Sync> World for W {}

/// Appends a format to a buffer or to a row: `say!(out; "FORMAT", ..)`. What calls it has
/// `std::fmt::Write` in scope.
#[macro_export]
macro_rules! say {
    ($out:expr; $($format:tt)*) => {{
        let done = write!($out, $($format)*);
        $out.need(done.is_ok());
    }};
}
