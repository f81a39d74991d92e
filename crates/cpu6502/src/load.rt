//! Loads and stores.

ghost use Rattle.std.specs.Prelude.{◌≡◌, slice_index};
ghost use Rattle.cpu6502.specs.Loads.{load_effect};

use crate::cpu::Cpu;
use crate::effect::{Effect, quiet, storing};
use crate::memory::Memory;
use crate::mnemonic::Mnemonic;

/// Loads and stores. `None` for any other name.
pub fn load(mnemonic: Mnemonic, place: u16, memory: &Memory, cpu: Cpu) -> Option<Effect>
    ensures { result ≡ load_effect mnemonic place (slice_index memory.now) cpu }
{
    match mnemonic {
        Mnemonic::Lda => Some(quiet(cpu.with_a(memory.read(place)))),
        Mnemonic::Ldx => Some(quiet(cpu.with_x(memory.read(place)))),
        Mnemonic::Ldy => Some(quiet(cpu.with_y(memory.read(place)))),
        Mnemonic::Sta => Some(storing(cpu, place, cpu.a)),
        Mnemonic::Stx => Some(storing(cpu, place, cpu.x)),
        Mnemonic::Sty => Some(storing(cpu, place, cpu.y)),
        _ => None,
    }
}
