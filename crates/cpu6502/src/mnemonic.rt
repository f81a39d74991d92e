//! The names of instructions, and their addressing modes.

/// The name of an instruction, as the MOS 6502 programming manual writes it.
#[derive(Clone, Copy, Debug, PartialEq, Eq)]
pub enum Mnemonic {
    /// Add a byte and the carry to A.
    Adc,
    /// A and a byte, bit by bit.
    And,
    /// Shift left.
    Asl,
    /// Branch where the carry is clear.
    Bcc,
    /// Branch where the carry is set.
    Bcs,
    /// Branch where the last result was zero.
    Beq,
    /// Test bits of a byte against A.
    Bit,
    /// Branch where the last result was negative.
    Bmi,
    /// Branch where the last result wasn't zero.
    Bne,
    /// Branch where the last result wasn't negative.
    Bpl,
    /// Break: it stops the machine.
    Brk,
    /// Branch where the overflow is clear.
    Bvc,
    /// Branch where the overflow is set.
    Bvs,
    /// Clear the carry.
    Clc,
    /// Clear the decimal flag.
    Cld,
    /// Clear the interrupt flag.
    Cli,
    /// Clear the overflow.
    Clv,
    /// Compare A with a byte.
    Cmp,
    /// Compare X with a byte.
    Cpx,
    /// Compare Y with a byte.
    Cpy,
    /// A byte of memory less one.
    Dec,
    /// X less one.
    Dex,
    /// Y less one.
    Dey,
    /// A or else a byte, bit by bit.
    Eor,
    /// A byte of memory and one.
    Inc,
    /// X and one.
    Inx,
    /// Y and one.
    Iny,
    /// Jump.
    Jmp,
    /// Call: push the address of its own last byte and jump.
    Jsr,
    /// A byte into A.
    Lda,
    /// A byte into X.
    Ldx,
    /// A byte into Y.
    Ldy,
    /// Shift right.
    Lsr,
    /// No operation.
    Nop,
    /// A or a byte, bit by bit.
    Ora,
    /// Push A.
    Pha,
    /// Push the flags.
    Php,
    /// Pull A.
    Pla,
    /// Pull the flags.
    Plp,
    /// Rotate left through the carry.
    Rol,
    /// Rotate right through the carry.
    Ror,
    /// Return from an interrupt.
    Rti,
    /// Return from a call.
    Rts,
    /// Subtract a byte and what the carry borrows from A.
    Sbc,
    /// Set the carry.
    Sec,
    /// Set the decimal flag.
    Sed,
    /// Set the interrupt flag.
    Sei,
    /// A into memory.
    Sta,
    /// X into memory.
    Stx,
    /// Y into memory.
    Sty,
    /// A into X.
    Tax,
    /// A into Y.
    Tay,
    /// The stack pointer into X.
    Tsx,
    /// X into A.
    Txa,
    /// X into the stack pointer, with no flag.
    Txs,
    /// Y into A.
    Tya,
}

/// How an instruction finds its operand: the addressing modes of the MOS 6502 programming manual.
#[derive(Clone, Copy, Debug, PartialEq, Eq)]
pub enum Mode {
    /// No operand: the name says it all.
    Implied,
    /// `A`: the accumulator, of the four shifts alone.
    Accumulator,
    /// `#byte`: the byte after the opcode.
    Immediate,
    /// `place`: a byte of page 0.
    ZeroPage,
    /// `place,X`: the byte of page 0 at the place plus X, mod 256.
    ZeroPageX,
    /// `place,Y`: the byte of page 0 at the place plus Y, mod 256.
    ZeroPageY,
    /// `address`: the byte at an address, whose low byte stands first; for JMP and JSR the address itself.
    Absolute,
    /// `address,X`: the byte at an address plus X, mod 65,536.
    AbsoluteX,
    /// `address,Y`: the byte at an address plus Y, mod 65,536.
    AbsoluteY,
    /// `(place,X)`: the address stands in page 0 at the place plus X.
    IndirectX,
    /// `(place),Y`: Y is added to the address that stands in page 0 at the place.
    IndirectY,
    /// `(address)`, of JMP alone.
    Indirect,
    /// A displacement from -128 to 127 from the next instruction, of the branches.
    Relative,
}

impl Mode {
    ghost use Rattle.std.specs.Prelude.{◌≡◌};
    ghost use Rattle.cpu6502.specs.Opcodes.{length_of, is_accumulator};

    /// The bytes that an instruction of this mode takes, with its opcode: 1 to 3.
    pub fn length(self) -> u8
        ensures { result ≡ length_of self }
    {
        match self {
            Mode::Implied | Mode::Accumulator => 1,
            Mode::Absolute | Mode::AbsoluteX | Mode::AbsoluteY | Mode::Indirect => 3,
            Mode::Immediate
            | Mode::ZeroPage
            | Mode::ZeroPageX
            | Mode::ZeroPageY
            | Mode::IndirectX
            | Mode::IndirectY
            | Mode::Relative => 2,
        }
    }

    /// Whether an instruction of this mode works on the accumulator in the place of memory.
    pub fn is_accumulator(self) -> bool
        ensures { result ≡ is_accumulator self }
    {
        match self {
            Mode::Accumulator => true,
            _ => false,
        }
    }
}
