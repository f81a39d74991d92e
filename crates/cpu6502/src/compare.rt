//! Comparisons of a register with memory.

ghost use Rattle.std.specs.Prelude.{◌≡◌, slice_index};
ghost use Rattle.cpu6502.specs.Compares.{compare_effect, compared};

use crate::cpu::Cpu;
use crate::effect::{Effect, quiet};
use crate::memory::Memory;
use crate::mnemonic::Mnemonic;

/// Comparisons of a register with memory. `None` for any other name.
pub fn compare(mnemonic: Mnemonic, place: u16, memory: &Memory, cpu: Cpu) -> Option<Effect>
    ensures { result ≡ compare_effect mnemonic place (slice_index memory.now) cpu }
{
    match mnemonic {
        Mnemonic::Cmp => Some(quiet(compared(cpu, cpu.a, memory.read(place)))),
        Mnemonic::Cpx => Some(quiet(compared(cpu, cpu.x, memory.read(place)))),
        Mnemonic::Cpy => Some(quiet(compared(cpu, cpu.y, memory.read(place)))),
        _ => None,
    }
}

/// The registers after a comparison of one of them with a byte.
fn compared(cpu: Cpu, register: u8, byte: u8) -> Cpu
    ensures { result ≡ compared cpu register byte }
{
    let flags = Cpu {
        c: register >= byte,
        ..cpu
    };
    flags.with_sign_and_zero(register.wrapping_sub(byte))
}
