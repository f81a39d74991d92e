//! The standard output.

ghost use Rattle.std.specs.Prelude.{◌≡◌, None};

use crate::count::Count;
use crate::{Sink, SinkFault};
use std::io::ErrorKind;
use std::marker::Model;

/// The standard output. It tells nothing of what it took.
#[derive(Drop)]
pub struct StdSink<'a, R> {
    rt: &'a R,
    faults: Count,
}

/// Seen as its count of faults.
impl<'a, R> Model for StdSink<'a, R> {
    ghost use Rattle.std.specs.Prelude.{ℕ};

    ghost Value = { ℕ };

    ghost view = { λ s. s.faults };
}

impl<'a, R: Print> StdSink<'a, R> {
    /// The standard output of the program's runtime, with no fault yet.
    pub fn new(rt: &'a R) -> Self
        ensures { result ≡ 0 }
    {
        StdSink {
            rt,
            faults: Count::zero(),
        }
    }
}

impl<'a, R: Print> Sink for StdSink<'a, R> {
    ghost written = { λ _. None };

    ghost faults = { λ s. s };

    fn put(&mut self, bytes: &[u8]) -> Result<(), SinkFault> {
        match self.rt.write_all(bytes) {
            Ok(()) => Ok(()),
            Err(error) => match error.kind() {
                ErrorKind::OutOfMemory => Err(SinkFault::NoMemory),
                _ => {
                    self.faults.rise();
                    Err(SinkFault::Failed)
                }
            },
        }
    }
}
