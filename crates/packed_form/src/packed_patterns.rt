//! Packed patterns, as lists of bytes that take no memory.

use arrayvec::ArrayVec;
use std::marker::Model;

/// The most bytes of a packed pattern, with the `$00` at its end.
pub const MOST_PACKED_BYTES: usize = 256;

/// A list of at most 256 bytes. It takes no memory. Contracts see the list.
#[derive(Drop)]
pub struct PackedPattern {
    bytes: ArrayVec<u8, MOST_PACKED_BYTES>,
}

impl Model for PackedPattern {
    ghost use Rattle.std.specs.Prelude.{List, ℕ};

    ghost Value = { List ℕ };

    ghost view = { λ packed. packed.bytes.items };
}

impl PackedPattern {
    ghost use Rattle.std.specs.Prelude.{◌≡◌, ◌≤◌, length};

    /// The bytes, with the `$00` at the end.
    pub fn as_slice(&self) -> &[u8]
        ensures bytes { result.now ≡ self.now }
        ensures limit { length self.now ≤ MOST_PACKED_BYTES }
    {
        self.bytes.as_slice()
    }

    /// The packed pattern of these bytes.
    pub fn of(bytes: &[u8]) -> PackedPattern
        requires { length bytes.now ≤ MOST_PACKED_BYTES }
        ensures { result ≡ bytes.now }
    {
        let mut kept = ArrayVec::new();
        if kept.try_extend_from_slice(bytes).is_err() {
            unreachable!()
        }
        PackedPattern { bytes: kept }
    }
}
