//! What is wrong with a text.

ghost use Rattle.std.specs.Prelude.{◌≡◌};
ghost use Rattle.asm_text.specs.declared.faults.TextKind.TheVariants.{NoMemory};

/// What is wrong with a line of a text. The faults are looked for kind by kind in all lines, in this order, and the
/// first line of the first kind is told.
#[derive(Clone, Copy, Debug, PartialEq, Eq)]
pub enum TextKind {
    /// The line is none of a listing: the first doesn't give the origin, another says nothing that it may say, or no
    /// line feed ends it. A text without bytes has this fault in line 1.
    BadLine,
    /// It names a label that a line before it names.
    DoubleLabel,
    /// Its operand is a label that no line names.
    UnknownLabel,
    /// Its bytes pass the address `$FFFF`.
    PastEnd,
    /// It is a branch to a place that isn't from 128 bytes before the next instruction to 127 behind it.
    BranchTooFar,
    /// Out of memory.
    NoMemory,
}

/// Why a text isn't read: the line, counted from 1, and what is wrong with it. Where memory has run out the line is 0.
#[derive(Clone, Copy, Debug, PartialEq, Eq)]
pub struct TextFault {
    /// The line, counted from 1.
    pub line: u32,
    /// What is wrong with it.
    pub kind: TextKind,
}

impl From<base::NoMemory> for TextFault {
    ghost from_gives = { λ _ fault. fault.kind ≡ NoMemory };

    fn from(_e: base::NoMemory) -> TextFault {
        TextFault {
            line: 0,
            kind: TextKind::NoMemory,
        }
    }
}
