//! From an image to its listing.

ghost use Rattle.std.specs.Prelude.{◌≡◌, ◌≤◌, ◌<◌, ◌+◌, ◌*◌, ◌++◌, ◌∷◌, [], length, IfOk, OnOk};
ghost use Rattle.asm_text.specs.Printing.{listing_of, statement_of, operand_written, target_of};

use crate::laying::is_relative;
use crate::spelling::{LineText, origin_text, spelling};
use crate::statements::{Operand, Statement};
use asm6502::{Instr, decode};
use base::{ByteList, NoMemory};
use cpu6502::MEMORY_SIZE;
use std::alloc::Global;

/// The listing of an image that stands at an origin: the line of the origin; then, from the front, the line of each
/// instruction that the bytes decode to, and where they decode to none the line of one byte. It has no labels. The
/// image doesn't pass the end of memory.
///
/// # Errors
///
/// Out of memory.
pub fn print(alloc: Global, origin: u16, image: &[u8]) -> Result<ByteList, NoMemory>
    requires { origin + length image.now ≤ MEMORY_SIZE }
    ensures { IfOk result (λ text. text ≡ listing_of origin image.now) }
{
    let mut text = ByteList::new(alloc);
    put_line(&mut text, &origin_text(origin))?;
    let mut pc = u32::from(origin);
    let mut left = image;
    while !left.is_empty() {
        let statement = statement_of(pc, left);
        put_line(&mut text, &spelling(statement))?;
        let size = statement.size();
        pc += u32::from(size);
        let (_, rest) = left.split_at(usize::from(size));
        left = rest;
    }
    Ok(text)
}

/// Appends a line.
///
/// # Errors
///
/// Out of memory.
fn put_line(text: &mut ByteList, line: &LineText) -> Result<(), NoMemory>
    ensures { OnOk result (text.new ≡ text.old ++ (line.now ++ 10 ∷ [])) }
{
    text.extend(line.as_slice())?;
    text.push(b'\n')
}

/// What bytes that stand at pc begin with: an instruction, or a byte that is none.
fn statement_of(pc: u32, bytes: &[u8]) -> Statement
    requires some { 0 < length bytes.now }
    requires place { pc ≤ MEMORY_SIZE }
    ensures { result ≡ statement_of pc bytes.now }
{
    match decode(bytes) {
        Some((instr, _)) => {
            Statement::Code(instr.mnemonic, instr.mode, operand_written(pc, instr))
        }
        None => Statement::Byte(bytes[0]),
    }
}

/// The operand of an instruction at pc as it is written: for a branch its target.
fn operand_written(pc: u32, instr: Instr) -> Operand
    requires { pc ≤ MEMORY_SIZE }
    ensures { result ≡ operand_written pc instr }
{
    if instr.mode.length() == 1 {
        return Operand::Nothing;
    }
    if !is_relative(instr.mode) {
        return Operand::Number(instr.operand);
    }
    Operand::Number(target_of(pc, instr.operand))
}

/// The target of a branch at pc with a displacement byte.
fn target_of(pc: u32, byte: u16) -> u16
    requires { pc ≤ MEMORY_SIZE }
    ensures { result ≡ target_of pc byte }
{
    let size = MEMORY_SIZE as u32;
    let displacement = if byte < 128 {
        u32::from(byte)
    } else {
        u32::from(byte) + 65_280
    };
    ((pc + 2 + displacement) % size) as u16
}
