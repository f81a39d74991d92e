//! Packed texts, while they are written.

use arrayvec::ArrayVec;
use std::marker::Model;

/// The most bytes that 128 rows pack to: four for each row, and the `$00`.
pub(crate) const MOST_TEXT_BYTES: usize = 513;

/// A packed text while it is written: at most 513 bytes, so many as a pattern of 128 rows may need. It takes no memory.
#[derive(Drop)]
pub(crate) struct PackedText {
    bytes: ArrayVec<u8, MOST_TEXT_BYTES>,
}

impl Model for PackedText {
    ghost use Rattle.std.specs.Prelude.{List, ℕ};

    ghost Value = { List ℕ };

    ghost view = { λ text. text.bytes.items };
}

impl PackedText {
    ghost use Rattle.std.specs.Prelude.{◌≡◌, ◌<◌, ◌≤◌, ◌∷◌, ◌++◌, [], length};

    /// The empty text.
    pub fn new() -> PackedText
        ensures { result ≡ [] }
    {
        PackedText {
            bytes: ArrayVec::new(),
        }
    }

    /// The bytes, in order.
    pub fn as_slice(&self) -> &[u8]
        ensures bytes { result.now ≡ self.now }
        ensures limit { length self.now ≤ MOST_TEXT_BYTES }
    {
        self.bytes.as_slice()
    }

    /// Appends a byte.
    pub fn push(&mut self, byte: u8)
        requires { length self.old < MOST_TEXT_BYTES }
        ensures { self.new ≡ self.old ++ byte ∷ [] }
    {
        self.bytes.push(byte);
    }
}
