//! How statements are written.

ghost use Rattle.std.specs.Prelude.{◌≡◌, ◌≤◌, ◌++◌, length, codes};
ghost use Rattle.asm_text.specs.Statements.{before, behind, digits, operand_text, spelling, origin_text};

use crate::names::letters_of;
use crate::numbers::{byte_digits, word_digits};
use crate::statements::{Operand, Statement, is_wide};
use arrayvec::ArrayVec;
use cpu6502::Mode;
use std::marker::Model;

/// The text of one line, without its line feed: at most 16 bytes. It takes no memory. Contracts see the bytes.
#[derive(Drop)]
pub(crate) struct LineText {
    bytes: ArrayVec<u8, 16>,
}

impl Model for LineText {
    ghost use Rattle.std.specs.Prelude.{List, ℕ};

    ghost Value = { List ℕ };

    ghost view = { λ text. text.bytes.items };
}

impl LineText {
    ghost use Rattle.std.specs.Prelude.{◌≡◌, ◌+◌, ◌≤◌, [], ◌++◌, length};

    /// Nothing.
    fn new() -> LineText
        ensures { result ≡ [] }
    {
        LineText {
            bytes: ArrayVec::new(),
        }
    }

    /// Appends bytes.
    fn add(&mut self, bytes: &[u8])
        requires { length self.old + length bytes.now ≤ 16 }
        ensures { self.new ≡ self.old ++ bytes.now }
    {
        if self.bytes.try_extend_from_slice(bytes).is_err() {
            unreachable!();
        }
    }

    /// The bytes.
    pub(crate) fn as_slice(&self) -> &[u8]
        ensures { result.now ≡ self.now }
    {
        self.bytes.as_slice()
    }
}

/// What stands before the sign of an operand's number.
pub(crate) fn before(mode: Mode) -> &'static [u8]
    ensures text { result.now ≡ before mode }
    ensures bound { length result.now ≤ 2 }
{
    match mode {
        Mode::Implied => b"",
        Mode::Accumulator => b" A",
        Mode::Immediate => b" #",
        Mode::IndirectX | Mode::IndirectY | Mode::Indirect => b" (",
        Mode::ZeroPage
        | Mode::ZeroPageX
        | Mode::ZeroPageY
        | Mode::Absolute
        | Mode::AbsoluteX
        | Mode::AbsoluteY
        | Mode::Relative => b" ",
    }
}

/// What stands behind the digits of an operand's number.
fn behind(mode: Mode) -> &'static [u8]
    ensures text { result.now ≡ behind mode }
    ensures bound { length result.now ≤ 3 }
{
    match mode {
        Mode::ZeroPageX | Mode::AbsoluteX => b",X",
        Mode::ZeroPageY | Mode::AbsoluteY => b",Y",
        Mode::IndirectX => b",X)",
        Mode::IndirectY => b"),Y",
        Mode::Indirect => b")",
        Mode::Implied
        | Mode::Accumulator
        | Mode::Immediate
        | Mode::ZeroPage
        | Mode::Absolute
        | Mode::Relative => b"",
    }
}

/// Appends the digits of a number: four where the mode has an address, else two.
fn add_digits(text: &mut LineText, mode: Mode, number: u16)
    requires { length text.old ≤ 8 }
    ensures { text.new ≡ text.old ++ digits mode number }
{
    if is_wide(mode) {
        text.add(&word_digits(number));
    } else {
        text.add(&byte_digits((number % 256) as u8));
    }
}

/// Appends what stands behind the name of an instruction.
fn add_operand(text: &mut LineText, mode: Mode, operand: Operand)
    requires { length text.old ≤ 3 }
    ensures { text.new ≡ text.old ++ operand_text mode operand }
{
    text.add(before(mode));
    match operand {
        Operand::Nothing => {}
        Operand::Number(number) => {
            text.add(b"$");
            add_digits(text, mode, number);
            text.add(behind(mode));
        }
        Operand::Label(label) => {
            text.add(b"L");
            text.add(&word_digits(label));
            text.add(behind(mode));
        }
    }
}

/// The text of a statement.
pub(crate) fn spelling(statement: Statement) -> LineText
    ensures { result ≡ spelling statement }
{
    let mut text = LineText::new();
    match statement {
        Statement::Label(label) => {
            text.add(b"L");
            text.add(&word_digits(label));
            text.add(b":");
        }
        Statement::Byte(byte) => {
            text.add(b".byte $");
            text.add(&byte_digits(byte));
        }
        Statement::Code(mnemonic, mode, operand) => {
            text.add(&letters_of(mnemonic));
            add_operand(&mut text, mode, operand);
        }
    }
    text
}

/// The text of the first line, which gives the origin.
pub(crate) fn origin_text(origin: u16) -> LineText
    ensures { result ≡ origin_text origin }
{
    let mut text = LineText::new();
    text.add(b"* = $");
    text.add(&word_digits(origin));
    text
}
