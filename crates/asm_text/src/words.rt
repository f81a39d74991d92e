//! What a line says.

ghost use Rattle.std.specs.Prelude.{◌≡◌, ◌<◌, ◌+◌, ◌↔◌, ℕ, ◌^◌, IsTrue, MatchOption};
ghost use Rattle.asm_text.specs.Reading.{mode_of_nine, mode_in_brackets, mode_of_eleven, mode_shown, is_absolute};
ghost use Rattle.asm_text.specs.Reading.{mode_for, operand_at, operand_shown, shown};
ghost use Rattle.asm_text.specs.Lines.{SaysNothing, Spells, IsOriginLine};

use crate::names::named;
use crate::numbers::{byte_at, byte_value, word_value};
use crate::spelling::{before, origin_text, spelling};
use crate::statements::{Operand, Statement, is_wide};
use cpu6502::{Mnemonic, Mode, opcode};

/// Whether a line is empty or a comment.
pub(crate) fn says_nothing(line: &[u8]) -> bool
    ensures { IsTrue result ↔ SaysNothing line.now }
{
    match line {
        [] => true,
        [first, ..] => *first == b';',
    }
}

/// The origin that a line gives, if it is a first line.
pub(crate) fn origin_of(line: &[u8]) -> Option<u16>
    ensures { MatchOption result ((origin : ℕ) → ¬ IsOriginLine origin line.now)
        (λ origin. IsOriginLine origin line.now) }
{
    let origin = word_value(line, 5);
    if origin_text(origin).as_slice() == line {
        Some(origin)
    } else {
        None
    }
}

/// The statement that a line spells, if it spells one.
pub(crate) fn statement_of(line: &[u8]) -> Option<Statement>
    ensures { MatchOption result ((statement : _) → ¬ Spells line.now statement)
        (λ statement. Spells line.now statement) }
{
    let statement = shown(line)?;
    if statement.is_right() && spelling(statement).as_slice() == line {
        Some(statement)
    } else {
        None
    }
}

/// What a line would say if it were written as it should be.
fn shown(line: &[u8]) -> Option<Statement>
    ensures { result ≡ shown line.now }
{
    if line.len() == 6 {
        return Some(Statement::Label(word_value(line, 1)));
    }
    if byte_at(line, 0) == b'.' {
        return Some(Statement::Byte(byte_value(line, 7)));
    }
    let mnemonic = named(byte_at(line, 0), byte_at(line, 1), byte_at(line, 2))?;
    let mode = mode_for(mnemonic, mode_shown(line));
    Some(Statement::Code(mnemonic, mode, operand_shown(mode, line)))
}

/// The mode that an instruction's line shows by its length and its signs.
fn mode_shown(line: &[u8]) -> Mode
    ensures { result ≡ mode_shown line.now }
{
    match line.len() {
        3 => Mode::Implied,
        5 => Mode::Accumulator,
        7 => Mode::ZeroPage,
        8 => Mode::Immediate,
        9 => mode_of_nine(line),
        _ => mode_of_eleven(line),
    }
}

/// The mode that an instruction's line of nine bytes shows.
fn mode_of_nine(line: &[u8]) -> Mode
    ensures { result ≡ mode_of_nine line.now }
{
    if byte_at(line, 7) != b',' {
        return Mode::Absolute;
    }
    if byte_at(line, 8) == b'X' {
        Mode::ZeroPageX
    } else {
        Mode::ZeroPageY
    }
}

/// The mode that an instruction's line of eleven bytes shows.
fn mode_of_eleven(line: &[u8]) -> Mode
    ensures { result ≡ mode_of_eleven line.now }
{
    if byte_at(line, 4) == b'(' {
        return mode_in_brackets(line);
    }
    if byte_at(line, 10) == b'X' {
        Mode::AbsoluteX
    } else {
        Mode::AbsoluteY
    }
}

/// The mode that a line of eleven bytes shows whose operand begins with a bracket.
fn mode_in_brackets(line: &[u8]) -> Mode
    ensures { result ≡ mode_in_brackets line.now }
{
    match byte_at(line, 8) {
        b',' => Mode::IndirectX,
        b')' => Mode::IndirectY,
        _ => Mode::Indirect,
    }
}

/// The mode of an instruction that shows this one: an address alone is the target of a branch.
fn mode_for(mnemonic: Mnemonic, mode: Mode) -> Mode
    ensures { result ≡ mode_for mnemonic mode }
{
    if is_absolute(mode) && opcode(mnemonic, Mode::Relative).is_some() {
        Mode::Relative
    } else {
        mode
    }
}

/// Whether a mode is that of an address alone.
fn is_absolute(mode: Mode) -> bool
    ensures { result ≡ is_absolute mode }
{
    matches!(mode, Mode::Absolute)
}

/// The operand of a line with this mode.
fn operand_shown(mode: Mode, line: &[u8]) -> Operand
    ensures { result ≡ operand_shown mode line.now }
{
    operand_at(mode, line, 3 + before(mode).len())
}

/// The operand whose sign stands at a place.
fn operand_at(mode: Mode, line: &[u8], sign: usize) -> Operand
    requires { sign + 4 < 2 ^ 64 }
    ensures { result ≡ operand_at mode line.now sign }
{
    if mode.length() == 1 {
        return Operand::Nothing;
    }
    if !is_wide(mode) {
        return Operand::Number(u16::from(byte_value(line, sign + 1)));
    }
    let number = word_value(line, sign + 1);
    if byte_at(line, sign) == b'L' {
        Operand::Label(number)
    } else {
        Operand::Number(number)
    }
}
