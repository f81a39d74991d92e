//! Sums and differences with the carry.

ghost use Rattle.std.specs.Prelude.{◌≡◌, slice_index};
ghost use Rattle.cpu6502.specs.Arithmetic.{arithmetic_effect, overflows, with_sum, added};

use crate::cpu::Cpu;
use crate::effect::{Effect, quiet};
use crate::memory::Memory;
use crate::mnemonic::Mnemonic;

/// Sums and differences with the carry. `None` for any other name.
pub fn arithmetic(mnemonic: Mnemonic, place: u16, memory: &Memory, cpu: Cpu) -> Option<Effect>
    ensures { result ≡ arithmetic_effect mnemonic place (slice_index memory.now) cpu }
{
    match mnemonic {
        Mnemonic::Adc => Some(quiet(added(cpu, memory.read(place)))),
        Mnemonic::Sbc => Some(quiet(added(cpu, 255 - memory.read(place)))),
        _ => None,
    }
}

/// The registers after a byte and the carry are added to A.
fn added(cpu: Cpu, byte: u8) -> Cpu
    ensures { result ≡ added cpu byte }
{
    let carry: u16 = if cpu.c { 1 } else { 0 };
    with_sum(cpu, byte, u16::from(cpu.a) + u16::from(byte) + carry)
}

/// The registers with a sum in A: N and Z of its byte, C where it passes 255, and V.
fn with_sum(cpu: Cpu, byte: u8, sum: u16) -> Cpu
    ensures { result ≡ with_sum cpu byte sum }
{
    let low = (sum % 256) as u8;
    let flags = Cpu {
        v: overflows(cpu.a, byte, low),
        c: sum >= 256,
        ..cpu
    };
    flags.with_a(low)
}

/// Whether the signed sum of two bytes does not fit.
fn overflows(a: u8, byte: u8, sum: u8) -> bool
    ensures { result ≡ overflows a byte sum }
{
    if a >= 128 {
        byte >= 128 && sum < 128
    } else {
        byte < 128 && sum >= 128
    }
}
