//! One instruction, and its bytes.

use arrayvec::ArrayVec;
use cpu6502::{Mnemonic, Mode};
use std::marker::Model;

/// An instruction with its operand.
#[derive(Clone, Copy, Debug)]
pub struct Instr {
    /// Its name.
    pub mnemonic: Mnemonic,
    /// How it finds its operand.
    pub mode: Mode,
    /// The byte after the opcode, for a branch the displacement byte; the two bytes after it as a number, the low
    /// one first; or 0 where nothing stands after it.
    pub operand: u16,
}

/// The bytes of an instruction: at most three. It takes no memory. Contracts see the list.
#[derive(Drop)]
pub struct Encoded {
    bytes: ArrayVec<u8, 3>,
}

impl Model for Encoded {
    ghost use Rattle.std.specs.Prelude.{List, ℕ};

    ghost Value = { List ℕ };

    ghost view = { λ encoded. encoded.bytes.items };
}

impl Encoded {
    ghost use Rattle.std.specs.Prelude.{◌≡◌, ◌<◌, ◌≤◌, [], ◌∷◌, ◌++◌, length};

    /// An opcode alone.
    pub(crate) fn of_opcode(opcode: u8) -> Encoded
        ensures { result ≡ opcode ∷ [] }
    {
        let mut bytes = ArrayVec::new();
        bytes.push(opcode);
        Encoded { bytes }
    }

    /// Appends a byte.
    pub(crate) fn push(&mut self, byte: u8)
        requires { length self.old < 3 }
        ensures { self.new ≡ self.old ++ byte ∷ [] }
    {
        self.bytes.push(byte);
    }

    /// The bytes, the opcode first.
    pub fn as_slice(&self) -> &[u8]
        ensures bytes { result.now ≡ self.now }
        ensures limit { length self.now ≤ 3 }
    {
        self.bytes.as_slice()
    }
}
