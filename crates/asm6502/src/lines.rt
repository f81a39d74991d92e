//! Listings: labels, instructions and bytes, each line in a part of the program.

ghost use Rattle.std.specs.Prelude.{◌≡◌};
ghost use Rattle.asm6502.specs.Operands.{fits, takes_label, is_immediate};

use base::{ByteList, Items, NoMemory};
use cpu6502::{Mnemonic, Mode, opcode};
use std::alloc::Global;
use std::marker::Model;

/// The most lines of a listing that is assembled.
pub const MOST_LINES: usize = 1_000_000;

/// The most bytes that such a listing has in its items of bytes, together.
pub const MOST_BYTES: usize = 1_000_000;

/// A set of parts of a program: bit n is that of part n, 0 to 31.
#[derive(Clone, Copy, Debug, PartialEq, Eq)]
pub struct PartSet(pub u32);

/// What stands after the opcode of an instruction in a listing.
#[derive(Clone, Copy, Debug)]
pub enum Operand {
    /// Nothing: of the modes without operand.
    Nothing,
    /// A number; in the relative mode the displacement byte.
    Number(u16),
    /// The address of a label plus an offset, mod 65,536; in the relative mode the place that the branch goes to.
    Label(u16, u16),
    /// The low byte of the address of a label plus an offset.
    Low(u16, u16),
    /// The high byte of the address of a label plus an offset.
    High(u16, u16),
}

impl Operand {
    ghost use Rattle.std.specs.Prelude.{◌≡◌};
    ghost use Rattle.asm6502.specs.Operands.{suits, label_of};

    /// Whether it suits a mode: nothing where there is no operand, a number that fits, a label where there is an
    /// address or a branch, one byte of an address in the immediate mode.
    pub(crate) fn suits(self, mode: Mode) -> bool
        ensures { result ≡ suits mode self }
    {
        match self {
            Operand::Nothing => mode.length() == 1,
            Operand::Number(number) => fits(mode, number),
            Operand::Label(_, _) => takes_label(mode),
            Operand::Low(_, _) => is_immediate(mode),
            Operand::High(_, _) => is_immediate(mode),
        }
    }

    /// The label in it.
    pub(crate) fn label(self) -> Option<u16>
        ensures { result ≡ label_of self }
    {
        match self {
            Operand::Nothing | Operand::Number(_) => None,
            Operand::Label(label, _) => Some(label),
            Operand::Low(label, _) => Some(label),
            Operand::High(label, _) => Some(label),
        }
    }
}

/// Whether the operand's bytes hold a number.
fn fits(mode: Mode, number: u16) -> bool
    ensures { result ≡ fits mode number }
{
    let length = mode.length();
    length == 3 || length == 2 && number < 256
}

/// Whether the operand of a mode may be a label.
fn takes_label(mode: Mode) -> bool
    ensures { result ≡ takes_label mode }
{
    matches!(
        mode,
        Mode::Absolute | Mode::AbsoluteX | Mode::AbsoluteY | Mode::Indirect | Mode::Relative
    )
}

/// Whether the operand of a mode is a byte of its own.
fn is_immediate(mode: Mode) -> bool
    ensures { result ≡ is_immediate mode }
{
    matches!(mode, Mode::Immediate)
}

/// What a line of a listing holds.
#[derive(Drop)]
pub enum Item {
    /// Names the place of what follows; it takes no bytes.
    Label(u16),
    /// An instruction.
    Code(Mnemonic, Mode, Operand),
    /// Bytes as they are.
    Bytes(ByteList),
}

impl Item {
    ghost use Rattle.std.specs.Prelude.{◌≡◌};
    ghost use Rattle.asm6502.specs.Lines.{item_size, item_data, is_sound, label_used, label_named};

    /// The bytes that it takes.
    pub(crate) fn size(&self) -> usize
        ensures { result ≡ item_size self.now }
    {
        match self {
            Item::Label(_) => 0,
            Item::Code(_, mode, _) => usize::from(mode.length()),
            Item::Bytes(bytes) => bytes.as_slice().len(),
        }
    }

    /// The bytes in it that stand as they are.
    fn data_size(&self) -> usize
        ensures { result ≡ item_data self.now }
    {
        match self {
            Item::Label(_) | Item::Code(_, _, _) => 0,
            Item::Bytes(bytes) => bytes.as_slice().len(),
        }
    }

    /// Whether it can stand in a listing: an instruction has an opcode and an operand that suits its mode.
    pub(crate) fn is_sound(&self) -> bool
        ensures { result ≡ is_sound self.now }
    {
        match self {
            Item::Code(mnemonic, mode, operand) => {
                opcode(*mnemonic, *mode).is_some() && operand.suits(*mode)
            }
            Item::Label(_) | Item::Bytes(_) => true,
        }
    }

    /// The label in its operand.
    pub(crate) fn label_used(&self) -> Option<u16>
        ensures { result ≡ label_used self.now }
    {
        match self {
            Item::Code(_, _, operand) => operand.label(),
            Item::Label(_) | Item::Bytes(_) => None,
        }
    }

    /// The label that it names.
    pub(crate) fn label_named(&self) -> Option<u16>
        ensures { result ≡ label_named self.now }
    {
        match self {
            Item::Label(label) => Some(*label),
            Item::Code(_, _, _) | Item::Bytes(_) => None,
        }
    }
}

/// A line of a listing. Part 255 is always kept; a part from 0 to 31 is kept where its bit is in the set that the
/// listing is assembled with.
#[derive(Drop)]
pub struct Line {
    /// The part of the program that it is in: 0 to 31, or 255.
    pub part: u8,
    /// What it holds.
    pub item: Item,
}

impl Line {
    ghost use Rattle.std.specs.Prelude.{◌≡◌, ◌||◌, ◌&&◌, not};
    ghost use Rattle.asm6502.specs.Lines.{is_kept, is_no_part, is_sound};

    /// Whether it is kept with a set of parts.
    pub(crate) fn is_kept(&self, set: PartSet) -> bool
        ensures { result ≡ is_kept set.0 self.now }
    {
        if self.part == 255 {
            return true;
        }
        self.part < 32 && (set.0 >> u32::from(self.part)) & 1 == 1
    }

    /// Whether it is in a part that there isn't, or is kept and can't stand in a listing.
    pub(crate) fn is_bad(&self, set: PartSet) -> bool
        ensures { result ≡ is_no_part self.now.part
            || is_kept set.0 self.now && not (is_sound self.now.item) }
    {
        let no_part = self.part > 31 && self.part < 255;
        no_part || self.is_kept(set) && !self.item.is_sound()
    }
}

/// The lines of a program, in order. Contracts see the list.
#[derive(Drop)]
pub struct Listing {
    lines: Items<Line>,
}

impl Model for Listing {
    ghost use Rattle.std.specs.Prelude.{List};
    ghost use Rattle.asm6502.specs.declared.lines.Line.{Line};

    ghost Value = { List Line };

    ghost view = { λ listing. listing.lines };
}

impl Listing {
    ghost use Rattle.std.specs.Prelude.{◌≡◌, ◌≤◌, ◌↔◌, [], ◌∷◌, ◌++◌, length, IsTrue, OnOk, OnErr};
    ghost use Rattle.asm6502.specs.Lines.{data_size};

    /// No lines.
    pub fn new(alloc: Global) -> Listing
        ensures { result ≡ [] }
    {
        Listing {
            lines: Items::new(alloc),
        }
    }

    /// Appends a line.
    ///
    /// # Errors
    ///
    /// Out of memory: the listing is as before.
    pub fn push(&mut self, line: Line) -> Result<(), NoMemory>
        ensures ok { OnOk result (self.new ≡ self.old ++ line ∷ []) }
        ensures err { OnErr result (self.new ≡ self.old) }
    {
        self.lines.push(line)
    }

    /// Moves the lines of another listing to the end of this one.
    ///
    /// # Errors
    ///
    /// Out of memory: both listings are as before.
    pub fn append(&mut self, other: &mut Listing) -> Result<(), NoMemory>
        ensures ok { OnOk result (self.new ≡ self.old ++ other.old) }
        ensures emptied { OnOk result (other.new ≡ []) }
        ensures err { OnErr result (self.new ≡ self.old) }
        ensures kept { OnErr result (other.new ≡ other.old) }
    {
        self.lines.append(&mut other.lines)
    }

    /// The lines in order.
    pub fn as_slice(&self) -> &[Line]
        ensures { result.now ≡ self.now }
    {
        self.lines.as_slice()
    }

    /// Whether it is in the limits of `assemble`: at most [`MOST_LINES`] lines, and at most [`MOST_BYTES`] bytes in its
    /// items of bytes.
    pub fn is_within_limits(&self) -> bool
        ensures { IsTrue result
            ↔ ((length self.now ≤ MOST_LINES) × (data_size self.now ≤ MOST_BYTES)) }
    {
        if self.lines.len() > MOST_LINES {
            return false;
        }
        let mut room = MOST_BYTES;
        for line in self.lines.as_slice() {
            let size = line.item.data_size();
            if size > room {
                return false;
            }
            room -= size;
        }
        true
    }
}
