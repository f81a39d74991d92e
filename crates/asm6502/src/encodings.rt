//! From an instruction to its bytes, and back.

ghost use Rattle.std.specs.Prelude.{◌≡◌};
ghost use Rattle.asm6502.specs.Instructions.{encoding, decoding, operand_from};

use crate::instructions::{Encoded, Instr};
use cpu6502::{Mode, meaning, opcode};

/// The bytes of an instruction, by the machine's own table: the opcode, then the operand, the low byte first. `None`
/// where the table has no such opcode, or where the operand doesn't fit: a mode without operand takes 0 alone, and
/// one with an operand byte takes 0 to 255.
pub fn encode(instr: Instr) -> Option<Encoded>
    ensures { result ≡ encoding instr }
{
    let mut encoded = Encoded::of_opcode(opcode(instr.mnemonic, instr.mode)?);
    match instr.mode.length() {
        1 => {
            if instr.operand != 0 {
                return None;
            }
        }
        2 => {
            if instr.operand > 255 {
                return None;
            }
            encoded.push(instr.operand as u8);
        }
        _ => {
            let [low, high] = instr.operand.to_le_bytes();
            encoded.push(low);
            encoded.push(high);
        }
    }
    Some(encoded)
}

/// The instruction that bytes begin with, and how many of them it takes. `None` where the first byte is no documented
/// opcode, or where there are fewer bytes than it takes.
pub fn decode(bytes: &[u8]) -> Option<(Instr, u8)>
    ensures { result ≡ decoding bytes.now }
{
    let (first, rest) = bytes.split_first()?;
    let (mnemonic, mode) = meaning(*first)?;
    let operand = operand_of(mode, rest)?;
    let instr = Instr {
        mnemonic,
        mode,
        operand,
    };
    Some((instr, mode.length()))
}

/// The operand that stands after an opcode.
fn operand_of(mode: Mode, rest: &[u8]) -> Option<u16>
    ensures { result ≡ operand_from mode rest.now }
{
    match mode.length() {
        1 => Some(0),
        2 => match rest {
            [byte, ..] => Some(u16::from(*byte)),
            [] => None,
        },
        _ => match rest {
            [low, high, ..] => Some(u16::from_le_bytes([*low, *high])),
            _ => None,
        },
    }
}
