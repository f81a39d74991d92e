//! Why a listing isn't assembled or moved.

ghost use Rattle.std.specs.Prelude.{◌≡◌};
ghost use Rattle.asm6502.specs.declared.faults.AsmFault.TheVariants.{NoMemory};

/// Why a listing wasn't assembled. The refusals are tried in this order, each at its first place in the listing; from
/// the second on only kept lines count.
#[derive(Clone, Copy, Debug, PartialEq, Eq)]
pub enum AsmFault {
    /// The line, counted from 0, has a part from 32 to 254; or it is kept, and its instruction has no opcode, its
    /// number doesn't fit, or its operand doesn't suit its mode.
    BadLine {
        /// The line's number, counted from 0.
        line: u32,
    },
    /// The label is named a second time.
    DoubleLabel {
        /// The label.
        label: u16,
    },
    /// An operand has a label that no line names.
    UnknownLabel {
        /// The label.
        label: u16,
    },
    /// The origin plus this many bytes passes 65,536.
    PastEnd {
        /// The number of bytes.
        length: u32,
    },
    /// The branch in this line, counted from 0, goes to a label that no displacement reaches.
    BranchTooFar {
        /// The line's number, counted from 0.
        line: u32,
    },
    /// Out of memory.
    NoMemory,
}

impl From<base::NoMemory> for AsmFault {
    ghost from_gives = { λ _ fault. fault ≡ NoMemory };

    fn from(_e: base::NoMemory) -> AsmFault {
        AsmFault::NoMemory
    }
}

/// The new origin plus this many bytes passes 65,536.
#[derive(Clone, Copy, Debug, PartialEq, Eq)]
pub struct PastEnd {
    /// The number of bytes.
    pub length: u32,
}
