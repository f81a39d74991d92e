//! A sink in memory, for tests.

ghost use Rattle.std.specs.Prelude.{◌≡◌, ◌/◌, ◌++◌, [], Some, Ok, Err, OnOk, IsErrOf, IsErr, IsTrue};
ghost use Rattle.std.specs.Prelude.{◌==◌, take, length};
ghost use Rattle.goat_io.specs.Count.{Counts, next_count};
ghost use Rattle.goat_io.specs.Fault.{is_sink_failure};
ghost use Rattle.goat_io.specs.Written.{told_with_piece, IsTakenInPart};

use crate::count::Count;
use crate::listed::is_listed;
use crate::{Sink, SinkFault};
use std::alloc::Global;
use std::marker::Model;

/// A sink that keeps its bytes in memory, tells them, and fails at listed puts.
#[derive(Drop)]
pub struct MemSink {
    bytes: Vec<u8>,
    failing: Vec<u32>,
    puts: Count,
    faults: Count,
}

impl Model for MemSink {
    ghost use Rattle.goat_io.specs.MemSink.{MemBytes};

    ghost Value = { MemBytes };

    ghost view = { λ s. record {
      bytes = s.bytes.items;
      failing = s.failing.items;
      puts = s.puts;
      faults = s.faults;
    } };
}

impl MemSink {
    /// An empty sink. The puts are counted from 0, and those whose numbers are in `failing` fail and take the first
    /// half of their bytes, rounded down.
    pub fn new(alloc: Global, failing: Vec<u32>) -> Self
        ensures { result ≡ record { bytes = []; failing = failing.items; puts = 0; faults = 0 } }
    {
        MemSink {
            bytes: Vec::new(alloc),
            failing,
            puts: Count::zero(),
            faults: Count::zero(),
        }
    }

    /// All bytes that were taken.
    pub fn bytes(&self) -> &[u8]
        ensures { result.now ≡ self.now.bytes }
    {
        &self.bytes
    }
}

impl Sink for MemSink {
    ghost use Rattle.goat_io.specs.MemSink.{next_put_fails};

    ghost written = { λ s. Some s.bytes };

    ghost faults = { λ s. s.faults };

    fn put(&mut self, bytes: &[u8]) -> Result<(), SinkFault>
        ensures ok { OnOk result (Some self.new.bytes ≡
            told_with_piece (Some self.old.bytes) bytes.now) }
        ensures failed { IsErrOf result SinkFault.Failed →
            IsTakenInPart (Some self.old.bytes) (Some self.new.bytes) bytes.now }
        ensures no_memory { IsErrOf result SinkFault.NoMemory →
            Some self.new.bytes ≡ Some self.old.bytes }
        ensures faults { Counts (is_sink_failure result) self.old.faults self.new.faults }

        // The listed puts fail, and only they.
        ensures listed { IsTrue (next_put_fails self.old) → IsErr result }
        ensures only_listed { IsErrOf result SinkFault.Failed → IsTrue (next_put_fails self.old) }
        ensures half { IsErrOf result SinkFault.Failed →
            self.new.bytes ≡ self.old.bytes ++ take (length bytes.now / 2) bytes.now }
        ensures counted { self.new.puts ≡ next_count self.old.puts }
        ensures same_list { self.new.failing ≡ self.old.failing }
    {
        let fails = is_listed(&self.failing, self.puts.get());
        let taken = if fails {
            &bytes[..bytes.len() / 2]
        } else {
            bytes
        };
        let appended = self.bytes.extend_from_slice(taken);
        self.puts.rise();
        if appended.is_err() {
            return Err(SinkFault::NoMemory);
        }
        if fails {
            self.faults.rise();
            return Err(SinkFault::Failed);
        }
        Ok(())
    }
}
