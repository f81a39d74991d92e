//! Up or down by one.

ghost use Rattle.std.specs.Prelude.{◌≡◌, slice_index};
ghost use Rattle.cpu6502.specs.Counts.{count_effect, counted};

use crate::cpu::Cpu;
use crate::effect::{Effect, quiet, storing};
use crate::memory::Memory;
use crate::mnemonic::Mnemonic;

/// Up or down by one. `None` for any other name.
pub fn count(mnemonic: Mnemonic, place: u16, memory: &Memory, cpu: Cpu) -> Option<Effect>
    ensures { result ≡ count_effect mnemonic place (slice_index memory.now) cpu }
{
    match mnemonic {
        Mnemonic::Inc => Some(counted(cpu, place, memory.read(place).wrapping_add(1))),
        Mnemonic::Dec => Some(counted(cpu, place, memory.read(place).wrapping_sub(1))),
        Mnemonic::Inx => Some(quiet(cpu.with_x(cpu.x.wrapping_add(1)))),
        Mnemonic::Dex => Some(quiet(cpu.with_x(cpu.x.wrapping_sub(1)))),
        Mnemonic::Iny => Some(quiet(cpu.with_y(cpu.y.wrapping_add(1)))),
        Mnemonic::Dey => Some(quiet(cpu.with_y(cpu.y.wrapping_sub(1)))),
        _ => None,
    }
}

/// A byte of memory that is written once, with its N and Z.
fn counted(cpu: Cpu, place: u16, byte: u8) -> Effect
    ensures { result ≡ counted cpu place byte }
{
    storing(cpu.with_sign_and_zero(byte), place, byte)
}
