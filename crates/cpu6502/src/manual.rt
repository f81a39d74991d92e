//! The clock cycles of an instruction in a mode, as the manual's tables have them.

ghost use Rattle.std.specs.Prelude.{◌≡◌, ◌≤◌};
ghost use Rattle.cpu6502.specs.Manual.{read_cycles, store_cycles, change_cycles, jump_cycles, cycles_of};

use crate::mnemonic::{Mnemonic, Mode};

/// Those of what neither stores nor changes a byte, and of a jump by a pointer.
fn read_cycles(mode: Mode) -> u8
    ensures cycles { result ≡ read_cycles mode }
    ensures few { result ≤ 6 }
{
    match mode {
        Mode::Implied | Mode::Accumulator | Mode::Immediate | Mode::Relative => 2,
        Mode::ZeroPage => 3,
        Mode::ZeroPageX | Mode::ZeroPageY => 4,
        Mode::Absolute | Mode::AbsoluteX | Mode::AbsoluteY => 4,
        Mode::IndirectY | Mode::Indirect => 5,
        Mode::IndirectX => 6,
    }
}

/// Those of what stores a byte.
fn store_cycles(mode: Mode) -> u8
    ensures cycles { result ≡ store_cycles mode }
    ensures few { result ≤ 6 }
{
    match mode {
        Mode::AbsoluteX | Mode::AbsoluteY => 5,
        Mode::IndirectY => 6,
        _ => read_cycles(mode),
    }
}

/// Those of what changes a byte, or the accumulator.
fn change_cycles(mode: Mode) -> u8
    ensures cycles { result ≡ change_cycles mode }
    ensures few { result ≤ 7 }
{
    match mode {
        Mode::ZeroPage => 5,
        Mode::ZeroPageX | Mode::Absolute => 6,
        Mode::AbsoluteX => 7,
        _ => read_cycles(mode),
    }
}

/// The clock cycles of an instruction in a mode that it has, 2 to 7, without those that a crossed page and a branch that
/// is taken add. They are those of its row, by the MOS 6502 programming manual.
pub fn cycles_of(mnemonic: Mnemonic, mode: Mode) -> u8
    ensures cycles { result ≡ cycles_of mnemonic mode }
    ensures few { result ≤ 7 }
{
    match mnemonic {
        Mnemonic::Sta | Mnemonic::Stx | Mnemonic::Sty => store_cycles(mode),
        Mnemonic::Asl | Mnemonic::Lsr | Mnemonic::Rol => change_cycles(mode),
        Mnemonic::Ror | Mnemonic::Inc | Mnemonic::Dec => change_cycles(mode),
        Mnemonic::Jmp => match mode {
            Mode::Absolute => 3,
            _ => read_cycles(mode),
        },
        Mnemonic::Jsr | Mnemonic::Rts | Mnemonic::Rti => 6,
        Mnemonic::Brk => 7,
        Mnemonic::Pha | Mnemonic::Php => 3,
        Mnemonic::Pla | Mnemonic::Plp => 4,
        _ => read_cycles(mode),
    }
}
