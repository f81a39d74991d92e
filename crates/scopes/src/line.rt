//! The lines of a block.

use cpu6502::Mnemonic;

/// One of two bytes that hold 16 bits.
#[derive(Clone, Copy, Debug)]
pub enum Half {
    /// The low byte.
    Low,
    /// The high byte.
    High,
}

/// What an instruction works on, by label.
#[derive(Clone, Copy, Debug)]
pub enum Operand {
    /// A number.
    Number(u8),
    /// The byte under a label.
    Var(u16),
    /// The byte at the label's address plus X, mod 65,536: the current voice's, where X is 7 times its number.
    Own(u16),
    /// The byte at the label's address plus Y, mod 65,536.
    Entry(u16),
    /// The byte at the 16-bit address in the pointer, plus Y, mod 65,536.
    Pointed,
    /// A byte of the pointer, two bytes in page 0.
    Pointer(Half),
    /// A SID register, 0 to 24, at `$D400` on.
    Register(u8),
    /// A SID register of the current voice, 0 to 6: at `$D400` plus it plus X, mod 65,536.
    OwnRegister(u8),
    /// A byte of the first timer of CIA 1, at `$DC04` and `$DC05`.
    Timer(Half),
}

/// A flag that a branch looks at.
#[derive(Clone, Copy, Debug)]
pub enum Flag {
    /// The last byte was 0.
    Zero,
    /// Bit 7 of the last byte was set.
    Minus,
    /// The carry.
    Carry,
}

/// Whether a flag is on, or off.
#[derive(Clone, Copy, Debug)]
pub enum Test {
    /// The flag is on.
    On(Flag),
    /// The flag is off.
    Off(Flag),
}

/// The name of the scope over which a far leave jumps.
pub const OVER: u8 = 255;

/// The turns of an open loop: as many as the layout says, which are at most 255.
pub const OPEN: u8 = 255;

/// A line of a block. Those that open something go on to the `End` that closes it.
#[derive(Clone, Copy, Debug)]
pub enum Line {
    /// An instruction without an operand.
    Do(Mnemonic),
    /// An instruction with its operand.
    With(Mnemonic, Operand),
    /// Opens a scope with this name, 0 to 254; 255 is that of the scope over which a far leave jumps.
    Scope(u8),
    /// Goes on behind the innermost scope around it that has this name.
    Leave(u8),
    /// The same where the test is met. It is a branch, which reaches at most 127 bytes.
    LeaveIf(u8, Test),
    /// Opens a loop, which has at most this many turns, 0 to 254, or is open, which is 255; one more is stuck.
    Loop(u8),
    /// Begins the next turn of the innermost loop.
    Again,
    /// The same where the test is met.
    AgainIf(Test),
    /// Opens lines that are kept where a condition holds.
    When(u8),
    /// Opens lines that are kept where a condition holds, up to the `Or`, and the others behind it.
    Choose(u8),
    /// Parts the two sides of a `Choose`.
    Or,
    /// Is never come to.
    Never,
    /// Closes what was opened last.
    End,
}
