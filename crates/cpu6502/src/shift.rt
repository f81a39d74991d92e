//! Shifts and rotations by one bit.

ghost use Rattle.std.specs.Prelude.{◌≡◌, ℕ, IsSome, Ok, slice_index};
ghost use Rattle.cpu6502.specs.Shifts.{shifted, shift_effect, accumulator_effect};

use crate::cpu::{Cpu, one_if};
use crate::effect::{Effect, quiet, storing};
use crate::memory::Memory;
use crate::mnemonic::Mnemonic;

/// Shifts and rotations of a byte in memory, which is written once. `None` for any other name.
pub fn shift(mnemonic: Mnemonic, place: u16, memory: &Memory, cpu: Cpu) -> Option<Effect>
    ensures { result ≡ shift_effect mnemonic place (slice_index memory.now) cpu }
{
    let (byte, carry) = shifted(mnemonic, memory.read(place), cpu.c)?;
    let after = Cpu { c: carry, ..cpu }.with_sign_and_zero(byte);
    Some(storing(after, place, byte))
}

/// Shifts and rotations of the accumulator.
pub fn shift_accumulator(mnemonic: Mnemonic, cpu: Cpu) -> Effect
    requires { IsSome (shifted mnemonic cpu.a cpu.c) }
    ensures { (own : ℕ) → accumulator_effect mnemonic own cpu ≡ Ok result }
{
    match shifted(mnemonic, cpu.a, cpu.c) {
        Some((byte, carry)) => quiet(Cpu { c: carry, ..cpu }.with_a(byte)),
        None => unreachable!(),
    }
}

/// A byte shifted by one, and the bit that leaves it. The rotations take in the carry.
fn shifted(mnemonic: Mnemonic, byte: u8, carry: bool) -> Option<(u8, bool)>
    ensures { result ≡ shifted mnemonic byte carry }
{
    let twice = 2 * u16::from(byte);
    match mnemonic {
        Mnemonic::Asl => Some(((twice % 256) as u8, byte >= 128)),
        Mnemonic::Lsr => Some((byte / 2, byte % 2 == 1)),
        Mnemonic::Rol => {
            let rotated = twice + u16::from(one_if(carry));
            Some(((rotated % 256) as u8, byte >= 128))
        }
        Mnemonic::Ror => Some((byte / 2 + 128 * one_if(carry), byte % 2 == 1)),
        _ => None,
    }
}
