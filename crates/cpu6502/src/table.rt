//! The decode table: the one place where the opcodes of the MOS 6502 programming manual stand.

use crate::mnemonic::{Mnemonic, Mode};

/// A row of the table: what an opcode stands for.
#[derive(Clone, Copy, Debug)]
pub struct Row {
    /// The instruction.
    pub mnemonic: Mnemonic,
    /// How it finds its operand.
    pub mode: Mode,
    /// The clock cycles that it takes, from 2 to 7. Left out are the one cycle more of an indexed read that crosses a
    /// page, and those of a branch: one more where it is taken, and another one where that leads into another page
    /// than that of the next instruction.
    pub cycles: u8,
}

/// One row, by its name, its mode and its cycles; nothing stands for an opcode that has none.
macro_rules! row {
    () => {
        None
    };
    ($mnemonic:ident $mode:ident $cycles:literal) => {
        Some(Row {
            mnemonic: Mnemonic::$mnemonic,
            mode: Mode::$mode,
            cycles: $cycles,
        })
    };
}

/// Rows, each in brackets.
macro_rules! rows {
    ($([$($row:tt)*])*) => {
        [$(row!($($row)*)),*]
    };
}

/// The rows of all 256 opcodes, each at its own number; `None` where an opcode is undocumented. Sixteen opcodes stand
/// under the first of them, in two lines of eight.
pub const TABLE: [Option<Row>; 256] = rows! {
    // $00
    [Brk Implied 7] [Ora IndirectX 6] [] [] [] [Ora ZeroPage 3] [Asl ZeroPage 5] []
    [Php Implied 3] [Ora Immediate 2] [Asl Accumulator 2] [] [] [Ora Absolute 4] [Asl Absolute 6] []
    // $10
    [Bpl Relative 2] [Ora IndirectY 5] [] [] [] [Ora ZeroPageX 4] [Asl ZeroPageX 6] []
    [Clc Implied 2] [Ora AbsoluteY 4] [] [] [] [Ora AbsoluteX 4] [Asl AbsoluteX 7] []
    // $20
    [Jsr Absolute 6] [And IndirectX 6] [] [] [Bit ZeroPage 3] [And ZeroPage 3] [Rol ZeroPage 5] []
    [Plp Implied 4] [And Immediate 2] [Rol Accumulator 2] [] [Bit Absolute 4] [And Absolute 4] [Rol Absolute 6] []
    // $30
    [Bmi Relative 2] [And IndirectY 5] [] [] [] [And ZeroPageX 4] [Rol ZeroPageX 6] []
    [Sec Implied 2] [And AbsoluteY 4] [] [] [] [And AbsoluteX 4] [Rol AbsoluteX 7] []
    // $40
    [Rti Implied 6] [Eor IndirectX 6] [] [] [] [Eor ZeroPage 3] [Lsr ZeroPage 5] []
    [Pha Implied 3] [Eor Immediate 2] [Lsr Accumulator 2] [] [Jmp Absolute 3] [Eor Absolute 4] [Lsr Absolute 6] []
    // $50
    [Bvc Relative 2] [Eor IndirectY 5] [] [] [] [Eor ZeroPageX 4] [Lsr ZeroPageX 6] []
    [Cli Implied 2] [Eor AbsoluteY 4] [] [] [] [Eor AbsoluteX 4] [Lsr AbsoluteX 7] []
    // $60
    [Rts Implied 6] [Adc IndirectX 6] [] [] [] [Adc ZeroPage 3] [Ror ZeroPage 5] []
    [Pla Implied 4] [Adc Immediate 2] [Ror Accumulator 2] [] [Jmp Indirect 5] [Adc Absolute 4] [Ror Absolute 6] []
    // $70
    [Bvs Relative 2] [Adc IndirectY 5] [] [] [] [Adc ZeroPageX 4] [Ror ZeroPageX 6] []
    [Sei Implied 2] [Adc AbsoluteY 4] [] [] [] [Adc AbsoluteX 4] [Ror AbsoluteX 7] []
    // $80
    [] [Sta IndirectX 6] [] [] [Sty ZeroPage 3] [Sta ZeroPage 3] [Stx ZeroPage 3] []
    [Dey Implied 2] [] [Txa Implied 2] [] [Sty Absolute 4] [Sta Absolute 4] [Stx Absolute 4] []
    // $90
    [Bcc Relative 2] [Sta IndirectY 6] [] [] [Sty ZeroPageX 4] [Sta ZeroPageX 4] [Stx ZeroPageY 4] []
    [Tya Implied 2] [Sta AbsoluteY 5] [Txs Implied 2] [] [] [Sta AbsoluteX 5] [] []
    // $A0
    [Ldy Immediate 2] [Lda IndirectX 6] [Ldx Immediate 2] [] [Ldy ZeroPage 3] [Lda ZeroPage 3] [Ldx ZeroPage 3] []
    [Tay Implied 2] [Lda Immediate 2] [Tax Implied 2] [] [Ldy Absolute 4] [Lda Absolute 4] [Ldx Absolute 4] []
    // $B0
    [Bcs Relative 2] [Lda IndirectY 5] [] [] [Ldy ZeroPageX 4] [Lda ZeroPageX 4] [Ldx ZeroPageY 4] []
    [Clv Implied 2] [Lda AbsoluteY 4] [Tsx Implied 2] [] [Ldy AbsoluteX 4] [Lda AbsoluteX 4] [Ldx AbsoluteY 4] []
    // $C0
    [Cpy Immediate 2] [Cmp IndirectX 6] [] [] [Cpy ZeroPage 3] [Cmp ZeroPage 3] [Dec ZeroPage 5] []
    [Iny Implied 2] [Cmp Immediate 2] [Dex Implied 2] [] [Cpy Absolute 4] [Cmp Absolute 4] [Dec Absolute 6] []
    // $D0
    [Bne Relative 2] [Cmp IndirectY 5] [] [] [] [Cmp ZeroPageX 4] [Dec ZeroPageX 6] []
    [Cld Implied 2] [Cmp AbsoluteY 4] [] [] [] [Cmp AbsoluteX 4] [Dec AbsoluteX 7] []
    // $E0
    [Cpx Immediate 2] [Sbc IndirectX 6] [] [] [Cpx ZeroPage 3] [Sbc ZeroPage 3] [Inc ZeroPage 5] []
    [Inx Implied 2] [Sbc Immediate 2] [Nop Implied 2] [] [Cpx Absolute 4] [Sbc Absolute 4] [Inc Absolute 6] []
    // $F0
    [Beq Relative 2] [Sbc IndirectY 5] [] [] [] [Sbc ZeroPageX 4] [Inc ZeroPageX 6] []
    [Sed Implied 2] [Sbc AbsoluteY 4] [] [] [] [Sbc AbsoluteX 4] [Inc AbsoluteX 7] []
};
