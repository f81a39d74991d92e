//! The registers.

ghost use Rattle.std.specs.Prelude.{◌≡◌, ◌≤◌};
ghost use Rattle.cpu6502.specs.Registers.{one_if, with_sign_and_zero, with_a, with_x, with_y};

/// The registers of the MOS 6502 programming manual: accumulator, two index registers, stack pointer, program counter,
/// and the flags.
#[derive(Clone, Copy, Debug, PartialEq, Eq)]
pub struct Cpu {
    /// The accumulator A.
    pub a: u8,
    /// The index register X.
    pub x: u8,
    /// The index register Y.
    pub y: u8,
    /// The stack pointer: the next push writes at `$0100` plus this.
    pub sp: u8,
    /// The program counter: the address of the next opcode.
    pub pc: u16,
    /// Negative: bit 7 of the last result.
    pub n: bool,
    /// Overflow of a signed sum.
    pub v: bool,
    /// Decimal mode.
    pub d: bool,
    /// Interrupts are off.
    pub i: bool,
    /// The last result was zero.
    pub z: bool,
    /// Carry.
    pub c: bool,
}

impl Cpu {
    /// These registers with a byte in A, and its flags N and Z.
    pub fn with_a(self, byte: u8) -> Cpu
        ensures { result ≡ with_a self byte }
    {
        Cpu { a: byte, ..self }.with_sign_and_zero(byte)
    }

    /// These registers with a byte in X, and its flags N and Z.
    pub fn with_x(self, byte: u8) -> Cpu
        ensures { result ≡ with_x self byte }
    {
        Cpu { x: byte, ..self }.with_sign_and_zero(byte)
    }

    /// These registers with a byte in Y, and its flags N and Z.
    pub fn with_y(self, byte: u8) -> Cpu
        ensures { result ≡ with_y self byte }
    {
        Cpu { y: byte, ..self }.with_sign_and_zero(byte)
    }

    /// These registers with the flags N and Z of a result.
    pub fn with_sign_and_zero(self, byte: u8) -> Cpu
        ensures { result ≡ with_sign_and_zero self byte }
    {
        Cpu {
            n: byte >= 128,
            z: byte == 0,
            ..self
        }
    }
}

/// A flag as a number.
pub fn one_if(flag: bool) -> u8
    ensures value { result ≡ one_if flag }
    ensures bound { result ≤ 1 }
{
    if flag { 1 } else { 0 }
}
