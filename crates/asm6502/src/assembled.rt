//! An assembled listing, which can be moved to another origin.

ghost use Rattle.std.specs.Prelude.{◌≤◌, ◌+◌, length};
ghost use Rattle.cpu6502.specs.declared.memory.TheConstants.{MEMORY_SIZE};
ghost use Rattle.asm6502.specs.Fixes.{InOrder, InOrder-prop, NumbersStand, NumbersStand-prop};

use crate::fixes::FixList;
use base::ByteList;

/// The bytes of a listing that was assembled to stand at an origin. At the place of each fix stands its number.
#[derive(Drop)]
pub struct Assembled {
    /// The address of the first byte.
    pub origin: u16,
    /// The bytes.
    pub bytes: ByteList,
    /// Which of them are addresses.
    pub fixes: FixList,
    ghost fits: { origin + length bytes ≤ MEMORY_SIZE },
    ghost in_order: { InOrder 0 (length bytes) fixes } by { InOrder-prop 0 (length bytes) fixes },
    ghost numbers_stand: { NumbersStand origin bytes fixes } by { NumbersStand-prop
        origin bytes fixes },
}
