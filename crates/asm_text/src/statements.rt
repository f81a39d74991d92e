//! What the lines of a text listing say.

ghost use Rattle.std.specs.Prelude.{◌≡◌};
ghost use Rattle.asm6502.specs.Operands.{takes_label};

use base::{Items, NoMemory};
use cpu6502::{Mnemonic, Mode, opcode};
use std::alloc::Global;
use std::marker::Model;

/// What stands behind the name of an instruction in a text listing.
#[derive(Clone, Copy, Debug)]
pub enum Operand {
    /// No number: of the modes without operand.
    Nothing,
    /// A number of two or four digits; of a branch the address that it goes to.
    Number(u16),
    /// A label in place of a number of four digits.
    Label(u16),
}

impl Operand {
    ghost use Rattle.std.specs.Prelude.{◌≡◌};
    ghost use Rattle.asm_text.specs.Statements.{suits};

    /// Whether it suits a mode: nothing where there is no operand, a number that has the mode's digits, a label where
    /// there are four.
    pub(crate) fn suits(self, mode: Mode) -> bool
        ensures { result ≡ suits mode self }
    {
        match self {
            Operand::Nothing => mode.length() == 1,
            Operand::Number(number) => is_wide(mode) || mode.length() == 2 && number < 256,
            Operand::Label(_) => is_wide(mode),
        }
    }
}

/// Whether the operand of a mode is an address of four digits.
pub(crate) fn is_wide(mode: Mode) -> bool
    ensures { result ≡ takes_label mode }
{
    matches!(
        mode,
        Mode::Absolute | Mode::AbsoluteX | Mode::AbsoluteY | Mode::Indirect | Mode::Relative
    )
}

/// What a line of a text listing says, behind the first.
#[derive(Clone, Copy, Debug)]
pub enum Statement {
    /// Names the place of what follows.
    Label(u16),
    /// A byte as it is.
    Byte(u8),
    /// An instruction.
    Code(Mnemonic, Mode, Operand),
}

impl Statement {
    ghost use Rattle.std.specs.Prelude.{◌≡◌};
    ghost use Rattle.asm_text.specs.Statements.{is_right, size};

    /// Whether it may stand in a listing: an instruction has the mode, and its operand suits it.
    pub(crate) fn is_right(self) -> bool
        ensures { result ≡ is_right self }
    {
        match self {
            Statement::Label(_) | Statement::Byte(_) => true,
            Statement::Code(mnemonic, mode, operand) => {
                opcode(mnemonic, mode).is_some() && operand.suits(mode)
            }
        }
    }

    /// The bytes that it takes.
    pub(crate) fn size(self) -> u8
        ensures { result ≡ size self }
    {
        match self {
            Statement::Label(_) => 0,
            Statement::Byte(_) => 1,
            Statement::Code(_, mode, _) => mode.length(),
        }
    }
}

/// A statement, and the line that it stands in.
#[derive(Clone, Copy, Debug)]
pub struct Written {
    /// The line, counted from 1.
    pub line: u32,
    /// What it says.
    pub statement: Statement,
}

/// The statements of a text, in order. Contracts see the list.
#[derive(Drop)]
pub struct Script {
    items: Items<Written>,
}

impl Model for Script {
    ghost use Rattle.std.specs.Prelude.{List};
    ghost use Rattle.asm_text.specs.declared.statements.Written.{Written};

    ghost Value = { List Written };

    ghost view = { λ script. script.items };
}

impl Script {
    ghost use Rattle.std.specs.Prelude.{◌≡◌, [], ◌∷◌, ◌++◌, OnOk, OnErr};

    /// No statements.
    pub(crate) fn new(alloc: Global) -> Script
        ensures { result ≡ [] }
    {
        Script {
            items: Items::new(alloc),
        }
    }

    /// Appends a statement.
    ///
    /// # Errors
    ///
    /// Out of memory: the script is as before.
    pub(crate) fn push(&mut self, written: Written) -> Result<(), NoMemory>
        ensures ok { OnOk result (self.new ≡ self.old ++ written ∷ []) }
        ensures err { OnErr result (self.new ≡ self.old) }
    {
        self.items.push(written)
    }

    /// The statements in order.
    pub(crate) fn as_slice(&self) -> &[Written]
        ensures { result.now ≡ self.now }
    {
        self.items.as_slice()
    }
}
