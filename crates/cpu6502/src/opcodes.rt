//! The decode table read both ways: from an opcode to its instruction, and back.

ghost use Rattle.std.specs.Prelude.{◌≡◌, ◌<◌, ◌≤◌, IfSome, length, position};
ghost use Rattle.cpu6502.specs.Opcodes.{row_of, meaning_of, is_row, opcode_of};

use crate::mnemonic::{Mnemonic, Mode};
use crate::table::{Row, TABLE};

/// The row of an opcode byte in the table of the MOS 6502 programming manual; `None` where the opcode has no row there.
pub fn row_of(opcode: u8) -> Option<Row>
    ensures row { result ≡ row_of opcode }
    ensures quick { IfSome result (λ row. row.cycles ≤ 7) }
{
    // Borrowed, so that a look-up doesn't copy the table.
    let table: &'static [Option<Row>] = &TABLE;
    table[usize::from(opcode)]
}

/// The instruction that an opcode byte stands for in the MOS 6502 programming manual, and how it finds its operand;
/// `None` where the opcode has no row there.
pub fn meaning(opcode: u8) -> Option<(Mnemonic, Mode)>
    ensures { result ≡ meaning_of opcode }
{
    let row = row_of(opcode)?;
    Some((row.mnemonic, row.mode))
}

/// The opcode byte of an instruction in an addressing mode, by the MOS 6502 programming manual; `None` where the
/// instruction has no such mode there.
pub fn opcode(mnemonic: Mnemonic, mode: Mode) -> Option<u8>
    ensures { result ≡ opcode_of mnemonic mode }
{
    let table: &'static [Option<Row>] = &TABLE;
    let place = place_of(mnemonic, mode, table)?;
    Some(place as u8)
}

/// The first place of rows where that of an instruction in a mode stands.
fn place_of(mnemonic: Mnemonic, mode: Mode, rows: &[Option<Row>]) -> Option<usize>
    ensures place { result ≡ position (is_row mnemonic mode) rows.now }
    ensures bound { IfSome result (λ place. place < length rows.now) }
{
    rows.iter().position(|row| is_row(*row, mnemonic, mode))
}

/// Whether a row is that of an instruction in a mode.
fn is_row(row: Option<Row>, mnemonic: Mnemonic, mode: Mode) -> bool
    ensures { result ≡ is_row mnemonic mode row }
{
    match row {
        Some(row) => row.mode == mode && row.mnemonic == mnemonic,
        None => false,
    }
}
