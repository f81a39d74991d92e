//! Pushes and pulls. The stack wraps in page 1.

ghost use Rattle.std.specs.Prelude.{◌≡◌, ◌+◌, slice_index};
ghost use Rattle.cpu6502.specs.Registers.{stack_place};
ghost use Rattle.cpu6502.specs.Stack.{status_of, with_status, push_effect, after_pull, stack_effect};

use crate::cpu::{Cpu, one_if};
use crate::effect::{Effect, quiet, storing};
use crate::memory::Memory;
use crate::mnemonic::Mnemonic;

/// Pushes and pulls of A and of the flags. `None` for any other name.
pub fn on_stack(mnemonic: Mnemonic, memory: &Memory, cpu: Cpu) -> Option<Effect>
    ensures { result ≡ stack_effect mnemonic (slice_index memory.now) cpu }
{
    match mnemonic {
        Mnemonic::Pha => Some(push_effect(cpu, cpu.a)),
        Mnemonic::Php => Some(push_effect(cpu, status_of(cpu))),
        Mnemonic::Pla => Some(quiet(after_pull(cpu).with_a(stack_byte(memory, cpu.sp, 1)))),
        Mnemonic::Plp => Some(quiet(with_status(after_pull(cpu), stack_byte(memory, cpu.sp, 1)))),
        _ => None,
    }
}

/// The place of the stack that a stack pointer names, in page 1.
pub fn stack(sp: u8) -> u16
    ensures { result ≡ stack_place sp }
{
    256 + u16::from(sp)
}

/// The byte that the last of this many pulls reads.
pub fn stack_byte(memory: &Memory, sp: u8, pulls: u8) -> u8
    ensures { result ≡ slice_index memory.now (stack_place (sp + pulls)) }
{
    memory.read(stack(sp.wrapping_add(pulls)))
}

/// The effect of a push.
fn push_effect(cpu: Cpu, byte: u8) -> Effect
    ensures { result ≡ push_effect cpu byte }
{
    let after = Cpu {
        sp: cpu.sp.wrapping_sub(1),
        ..cpu
    };
    storing(after, stack(cpu.sp), byte)
}

/// The registers after a pull of one byte, but for what is pulled.
fn after_pull(cpu: Cpu) -> Cpu
    ensures { result ≡ after_pull cpu 1 }
{
    Cpu {
        sp: cpu.sp.wrapping_add(1),
        ..cpu
    }
}

/// The flags as a byte: N V 1 1 D I Z C from bit 7 to bit 0.
fn status_of(cpu: Cpu) -> u8
    ensures { result ≡ status_of cpu }
{
    let high = 128 * one_if(cpu.n) + 64 * one_if(cpu.v) + 48;
    high + 8 * one_if(cpu.d) + 4 * one_if(cpu.i) + 2 * one_if(cpu.z) + one_if(cpu.c)
}

/// The registers with the flags of a byte; bits 5 and 4 are no flags.
pub fn with_status(cpu: Cpu, byte: u8) -> Cpu
    ensures { result ≡ with_status cpu byte }
{
    Cpu {
        n: byte / 128 % 2 == 1,
        v: byte / 64 % 2 == 1,
        d: byte / 8 % 2 == 1,
        i: byte / 4 % 2 == 1,
        z: byte / 2 % 2 == 1,
        c: byte % 2 == 1,
        ..cpu
    }
}
