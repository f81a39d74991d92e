//! The 65,536 bytes.

ghost use Rattle.std.specs.Prelude.{◌≡◌, ◌↔◌, IfOk, IsTrue, All, length, slice_index, slice_set};

use base::NoMemory;
use std::alloc::{AllocError, Global};
use std::marker::Model;

/// The bytes of memory.
pub const MEMORY_SIZE: usize = 65_536;

/// The machine's memory: 65,536 bytes. Contracts see the list of them.
#[derive(Drop)]
pub struct Memory {
    bytes: Vec<u8>,
}

impl Model for Memory {
    ghost use Rattle.std.specs.Prelude.{List, ℕ, ◌≡◌, vec_len};
    ghost use Rattle.cpu6502.specs.declared.memory.TheConstants.{MEMORY_SIZE};

    ghost Value = { List ℕ };

    ghost view = { λ memory. memory.bytes.items };

    ghost invariant = { λ memory. vec_len memory.bytes ≡ MEMORY_SIZE };
}

impl Memory {
    /// Memory with this value in each byte.
    ///
    /// # Errors
    ///
    /// Out of memory.
    pub fn filled(alloc: Global, value: u8) -> Result<Memory, NoMemory>
        ensures size { IfOk result (λ memory. length memory ≡ MEMORY_SIZE) }
        ensures bytes { IfOk result (All (λ byte. byte ≡ value)) }
    {
        let bytes = bytes_of(alloc, MEMORY_SIZE, value)?;
        Ok(Memory { bytes })
    }

    /// The byte at a place.
    pub fn read(&self, at: u16) -> u8
        ensures { result ≡ slice_index self.now at }
    {
        self.bytes[usize::from(at)]
    }

    /// Whether two memories have the same bytes.
    pub fn is_same(&self, other: &Memory) -> bool
        ensures { IsTrue result ↔ (self.now ≡ other.now) }
    {
        self.bytes.as_slice() == other.bytes.as_slice()
    }

    /// Takes over the bytes of another memory.
    pub fn copy_from(&mut self, other: &Memory)
        ensures { self.new ≡ other.now }
    {
        self.bytes.copy_from_slice(&other.bytes);
    }

    /// Puts a byte at a place.
    pub fn write(&mut self, at: u16, value: u8)
        ensures { self.new ≡ slice_set self.old at value }
    {
        self.bytes[usize::from(at)] = value;
    }
}

/// A list of one byte, this many times: apart, so that `filled` is proved for a number of bytes that isn't written out.
///
/// # Errors
///
/// Out of memory.
fn bytes_of(alloc: Global, count: usize, value: u8) -> Result<Vec<u8>, AllocError>
    ensures size { IfOk result (λ bytes. length bytes.items ≡ count) }
    ensures bytes { IfOk result (λ bytes. All (λ byte. byte ≡ value) bytes.items) }
{
    vec![in alloc; value; count]
}
