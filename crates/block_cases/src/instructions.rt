//! Lines of a listing, as they are written, and single instructions.

use crate::difference::{Difference, same, same_byte};
use crate::words::Reader;
use asm6502::{Instr, Operand, decode, encode};
use cpu6502::{Mnemonic, Mode};
use std::alloc::Global;

/// What a line of a listing holds.
#[derive(Clone, Copy)]
pub enum Piece {
    Label(u16),
    Code(Mnemonic, Mode, Operand),
    Zeros(u32),
}

/// The names of instructions, as they are written.
pub const MNEMONICS: [(&[u8], Mnemonic); 56] = [
    (b"Adc", Mnemonic::Adc),
    (b"And", Mnemonic::And),
    (b"Asl", Mnemonic::Asl),
    (b"Bcc", Mnemonic::Bcc),
    (b"Bcs", Mnemonic::Bcs),
    (b"Beq", Mnemonic::Beq),
    (b"Bit", Mnemonic::Bit),
    (b"Bmi", Mnemonic::Bmi),
    (b"Bne", Mnemonic::Bne),
    (b"Bpl", Mnemonic::Bpl),
    (b"Brk", Mnemonic::Brk),
    (b"Bvc", Mnemonic::Bvc),
    (b"Bvs", Mnemonic::Bvs),
    (b"Clc", Mnemonic::Clc),
    (b"Cld", Mnemonic::Cld),
    (b"Cli", Mnemonic::Cli),
    (b"Clv", Mnemonic::Clv),
    (b"Cmp", Mnemonic::Cmp),
    (b"Cpx", Mnemonic::Cpx),
    (b"Cpy", Mnemonic::Cpy),
    (b"Dec", Mnemonic::Dec),
    (b"Dex", Mnemonic::Dex),
    (b"Dey", Mnemonic::Dey),
    (b"Eor", Mnemonic::Eor),
    (b"Inc", Mnemonic::Inc),
    (b"Inx", Mnemonic::Inx),
    (b"Iny", Mnemonic::Iny),
    (b"Jmp", Mnemonic::Jmp),
    (b"Jsr", Mnemonic::Jsr),
    (b"Lda", Mnemonic::Lda),
    (b"Ldx", Mnemonic::Ldx),
    (b"Ldy", Mnemonic::Ldy),
    (b"Lsr", Mnemonic::Lsr),
    (b"Nop", Mnemonic::Nop),
    (b"Ora", Mnemonic::Ora),
    (b"Pha", Mnemonic::Pha),
    (b"Php", Mnemonic::Php),
    (b"Pla", Mnemonic::Pla),
    (b"Plp", Mnemonic::Plp),
    (b"Rol", Mnemonic::Rol),
    (b"Ror", Mnemonic::Ror),
    (b"Rti", Mnemonic::Rti),
    (b"Rts", Mnemonic::Rts),
    (b"Sbc", Mnemonic::Sbc),
    (b"Sec", Mnemonic::Sec),
    (b"Sed", Mnemonic::Sed),
    (b"Sei", Mnemonic::Sei),
    (b"Sta", Mnemonic::Sta),
    (b"Stx", Mnemonic::Stx),
    (b"Sty", Mnemonic::Sty),
    (b"Tax", Mnemonic::Tax),
    (b"Tay", Mnemonic::Tay),
    (b"Tsx", Mnemonic::Tsx),
    (b"Txa", Mnemonic::Txa),
    (b"Txs", Mnemonic::Txs),
    (b"Tya", Mnemonic::Tya),
];

/// The modes that cases use.
const MODES: [(&[u8], Mode); 8] = [
    (b"Absolute", Mode::Absolute),
    (b"Accumulator", Mode::Accumulator),
    (b"Immediate", Mode::Immediate),
    (b"Implied", Mode::Implied),
    (b"Indirect", Mode::Indirect),
    (b"Relative", Mode::Relative),
    (b"ZeroPage", Mode::ZeroPage),
    (b"ZeroPageX", Mode::ZeroPageX),
];

impl Reader<'_> {
    /// Reads what stands behind an opcode.
    fn argument(&mut self) -> Operand {
        if self.takes(b"Nothing") {
            return Operand::Nothing;
        }
        if self.takes(b"Number") {
            return Operand::Number(self.short());
        }
        if self.takes(b"Low") {
            return Operand::Low(self.short(), self.short());
        }
        if self.takes(b"High") {
            return Operand::High(self.short(), self.short());
        }
        self.mark(b"Label");
        Operand::Label(self.short(), self.short())
    }

    /// Reads what a line holds.
    pub fn piece(&mut self) -> Piece {
        if self.takes(b"Label") {
            return Piece::Label(self.short());
        }
        if self.takes(b"Zeros") {
            return Piece::Zeros(self.number());
        }
        let mnemonic = self.one_of(&MNEMONICS, Mnemonic::Nop);
        let mode = self.one_of(&MODES, Mode::Implied);
        Piece::Code(mnemonic, mode, self.argument())
    }

    /// Reads an instruction with a number.
    fn instruction(&mut self) -> Instr {
        Instr {
            mnemonic: self.one_of(&MNEMONICS, Mnemonic::Nop),
            mode: self.one_of(&MODES, Mode::Implied),
            operand: self.short(),
        }
    }
}

/// Sees that two lists of bytes are the same.
pub fn same_bytes(found: &[u8], wanted: &[u8]) -> Result<(), Difference> {
    let (found_size, wanted_size) = (
        found.len().min(0xffff_ffff) as u32,
        wanted.len().min(0xffff_ffff) as u32,
    );
    same("the size", found_size, wanted_size)?;
    for (one, two) in found.iter().zip(wanted) {
        same_byte("a byte", *one, *two)?;
    }
    Ok(())
}

/// An instruction that is read from these bytes, which are no longer: its operand and its own bytes are those wanted.
fn check_read(instr: Instr, bytes: &[u8]) -> Result<(), Difference> {
    let Some((read, length)) = decode(bytes) else {
        return Err(Difference::NoInstruction);
    };
    let size = bytes.len().min(0xffff_ffff) as u32;
    same("the length", u32::from(length), size)?;
    same(
        "the operand",
        u32::from(read.operand),
        u32::from(instr.operand),
    )?;
    match (encode(read), encode(instr)) {
        (Some(found), Some(wanted)) => same_bytes(found.as_slice(), wanted.as_slice()),
        _ => Err(Difference::NoInstruction),
    }
}

/// An instruction that is spelled by these bytes, and read from them.
fn check_encoded(instr: Instr, bytes: &[u8]) -> Result<(), Difference> {
    let Some(encoded) = encode(instr) else {
        return Err(Difference::NoInstruction);
    };
    same_bytes(encoded.as_slice(), bytes)?;
    check_read(instr, bytes)
}

/// Sees that there is no instruction, or that there are no bytes of one.
fn check_none<T: Drop>(found: Option<T>) -> Result<(), Difference> {
    match found {
        Some(_) => Err(Difference::Done),
        None => Ok(()),
    }
}

/// Reads and checks a line of one instruction.
pub fn check_instruction(alloc: Global, reader: &mut Reader<'_>) -> Result<(), Difference> {
    if reader.takes(b"isn't-read") {
        let bytes = reader.bytes(alloc);
        reader.end()?;
        return check_none(decode(&bytes));
    }
    if reader.takes(b"has-no-bytes") {
        let instr = reader.instruction();
        reader.end()?;
        return check_none(encode(instr));
    }
    let is_read_alone = reader.takes(b"is-read");
    let instr = reader.instruction();
    let bytes = reader.bytes(alloc);
    reader.end()?;
    if is_read_alone {
        check_read(instr, &bytes)
    } else {
        check_encoded(instr, &bytes)
    }
}
