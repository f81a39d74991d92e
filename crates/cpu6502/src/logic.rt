//! Bit by bit: AND, ORA, EOR and BIT.

ghost use Rattle.std.specs.Prelude.{◌≡◌, slice_index};
ghost use Rattle.cpu6502.specs.Logic.{logic_effect, tested};

use crate::cpu::Cpu;
use crate::effect::{Effect, quiet};
use crate::memory::Memory;
use crate::mnemonic::Mnemonic;

/// Bit by bit. `None` for any other name.
pub fn logic(mnemonic: Mnemonic, place: u16, memory: &Memory, cpu: Cpu) -> Option<Effect>
    ensures { result ≡ logic_effect mnemonic place (slice_index memory.now) cpu }
{
    match mnemonic {
        Mnemonic::And => Some(quiet(cpu.with_a(cpu.a & memory.read(place)))),
        Mnemonic::Ora => Some(quiet(cpu.with_a(cpu.a | memory.read(place)))),
        Mnemonic::Eor => Some(quiet(cpu.with_a(cpu.a ^ memory.read(place)))),
        Mnemonic::Bit => Some(quiet(tested(cpu, memory.read(place)))),
        _ => None,
    }
}

/// The registers after a test of a byte's bits.
fn tested(cpu: Cpu, byte: u8) -> Cpu
    ensures { result ≡ tested cpu byte }
{
    Cpu {
        n: byte >= 128,
        v: byte / 64 % 2 == 1,
        z: cpu.a & byte == 0,
        ..cpu
    }
}
