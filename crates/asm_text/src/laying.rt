//! From the statements of a text to the listing of an assembler.

ghost use Rattle.std.specs.Prelude.{◌≡◌, ◌≤◌, ◌+◌, ◌*◌, length, IfOk};
ghost use Rattle.asm6502.specs.Branches.{branch_byte};
ghost use Rattle.asm6502.specs.Operands.{is_relative};
ghost use Rattle.asm_text.specs.Laying.{operand_at, item_at, listing_at};

use crate::statements::{Operand, Statement, Written};
use asm6502::{Item, Line, Listing};
use base::{ByteList, NoMemory};
use cpu6502::{MEMORY_SIZE, Mode};
use std::alloc::Global;

/// The most statements of a text of at most 1,048,576 bytes: each line that says something has at least four.
pub(crate) const MOST_STATEMENTS: usize = 262_144;

/// The displacement byte that leads from a branch to its target; `None` where the target is out of reach.
pub(crate) fn branch_byte(pc: u32, target: u16) -> Option<u8>
    requires { pc ≤ 1000000 }
    ensures { result ≡ branch_byte pc target }
{
    let size = MEMORY_SIZE as u32;
    let way = (u32::from(target) + 2 * size).saturating_sub(pc + 2) % size;
    if way < 128 {
        return Some(way as u8);
    }
    if way < 65_408 {
        return None;
    }
    Some((way - 65_280) as u8)
}

/// Whether a mode is that of the branches.
pub(crate) fn is_relative(mode: Mode) -> bool
    ensures { result ≡ is_relative mode }
{
    matches!(mode, Mode::Relative)
}

/// The operand of the instruction at pc.
fn operand_at(pc: u32, mode: Mode, operand: Operand) -> asm6502::Operand
    requires { pc ≤ 1000000 }
    ensures { result ≡ operand_at pc mode operand }
{
    match operand {
        Operand::Nothing => asm6502::Operand::Nothing,
        Operand::Number(number) => {
            if !is_relative(mode) {
                return asm6502::Operand::Number(number);
            }
            match branch_byte(pc, number) {
                Some(byte) => asm6502::Operand::Number(u16::from(byte)),
                None => asm6502::Operand::Number(0),
            }
        }
        Operand::Label(label) => asm6502::Operand::Label(label, 0),
    }
}

/// The item of a statement at pc.
///
/// # Errors
///
/// Out of memory.
fn item_at(alloc: Global, pc: u32, statement: Statement) -> Result<Item, NoMemory>
    requires { pc ≤ 1000000 }
    ensures { IfOk result (λ item. item ≡ item_at pc statement) }
{
    match statement {
        Statement::Label(label) => Ok(Item::Label(label)),
        Statement::Byte(byte) => {
            let bytes = ByteList::from_slice(alloc, &[byte])?;
            Ok(Item::Bytes(bytes))
        }
        Statement::Code(mnemonic, mode, operand) => {
            Ok(Item::Code(mnemonic, mode, operand_at(pc, mode, operand)))
        }
    }
}

/// The lines of statements that stand one after the other from an origin on.
///
/// # Errors
///
/// Out of memory.
pub(crate) fn listing_at(
    alloc: Global,
    origin: u16,
    script: &[Written],
) -> Result<Listing, NoMemory>
    requires { length script.now ≤ MOST_STATEMENTS }
    ensures { IfOk result (λ listing. listing ≡ listing_at origin script.now) }
{
    let mut listing = Listing::new(alloc);
    let mut pc = u32::from(origin);
    for written in script {
        let item = item_at(alloc, pc, written.statement)?;
        listing.push(Line { part: 255, item })?;
        pc += u32::from(written.statement.size());
    }
    Ok(listing)
}
