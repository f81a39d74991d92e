//! Jumps, the call, and the returns.

ghost use Rattle.std.specs.Prelude.{◌≡◌, slice_index};
ghost use Rattle.cpu6502.specs.Jumps.{jump_effect, call_effect, after_return, after_interrupt};

use crate::address::joined;
use crate::cpu::Cpu;
use crate::effect::{Effect, Write, Writes, quiet};
use crate::memory::Memory;
use crate::mnemonic::Mnemonic;
use crate::stack::{stack, stack_byte, with_status};

/// Jumps, the call, and the returns. `None` for any other name.
pub fn jump(mnemonic: Mnemonic, own: u16, place: u16, memory: &Memory, cpu: Cpu) -> Option<Effect>
    ensures { result ≡ jump_effect mnemonic own place (slice_index memory.now) cpu }
{
    match mnemonic {
        Mnemonic::Jmp => Some(quiet(Cpu { pc: place, ..cpu })),
        Mnemonic::Jsr => Some(call_effect(cpu, own.wrapping_add(2), place)),
        Mnemonic::Rts => Some(quiet(after_return(memory, cpu))),
        Mnemonic::Rti => Some(quiet(after_interrupt(memory, cpu))),
        _ => None,
    }
}

/// The effect of a call, which pushes the address of its own last byte.
fn call_effect(cpu: Cpu, last: u16, place: u16) -> Effect
    ensures { result ≡ call_effect cpu last place }
{
    let [low, high] = last.to_le_bytes();
    let first = Write {
        place: stack(cpu.sp),
        value: high,
    };
    let second = Write {
        place: stack(cpu.sp.wrapping_sub(1)),
        value: low,
    };
    Effect {
        cpu: Cpu {
            sp: cpu.sp.wrapping_sub(2),
            pc: place,
            ..cpu
        },
        writes: Writes::two(first, second),
    }
}

/// The registers after a pull of the address of a call's last byte: the program counter is one more.
fn after_return(memory: &Memory, cpu: Cpu) -> Cpu
    ensures { result ≡ after_return (slice_index memory.now) cpu }
{
    let low = stack_byte(memory, cpu.sp, 1);
    let high = stack_byte(memory, cpu.sp, 2);
    Cpu {
        sp: cpu.sp.wrapping_add(2),
        pc: joined(low, high).wrapping_add(1),
        ..cpu
    }
}

/// The registers after a pull of the flags and of an address, to which nothing is added.
fn after_interrupt(memory: &Memory, cpu: Cpu) -> Cpu
    ensures { result ≡ after_interrupt (slice_index memory.now) cpu }
{
    let low = stack_byte(memory, cpu.sp, 2);
    let high = stack_byte(memory, cpu.sp, 3);
    let there = Cpu {
        sp: cpu.sp.wrapping_add(3),
        pc: joined(low, high),
        ..cpu
    };
    with_status(there, stack_byte(memory, cpu.sp, 1))
}
