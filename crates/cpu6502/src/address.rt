//! Where an instruction finds its operand: the addressing modes.

ghost use Rattle.std.specs.Prelude.{◌≡◌, ◌+◌, ◌*◌, ◌<◌, slice_index};
ghost use Rattle.cpu6502.specs.Effects.{address_of, word_at, zero_page_word, same_page_word, displacement};

use crate::cpu::Cpu;
use crate::memory::{MEMORY_SIZE, Memory};
use crate::mnemonic::Mode;

/// The place of the operand of the instruction at the program counter; for a branch the place that it goes to, and 0
/// where there is no operand.
pub fn operand_place(mode: Mode, memory: &Memory, cpu: Cpu) -> u16
    ensures { result ≡ address_of mode (slice_index memory.now) cpu.pc cpu.x cpu.y }
{
    let operand = cpu.pc.wrapping_add(1);
    match mode {
        Mode::Implied | Mode::Accumulator => 0,
        Mode::Immediate => operand,
        Mode::ZeroPage => u16::from(memory.read(operand)),
        Mode::ZeroPageX => u16::from(memory.read(operand).wrapping_add(cpu.x)),
        Mode::ZeroPageY => u16::from(memory.read(operand).wrapping_add(cpu.y)),
        Mode::Absolute => word(memory, operand),
        Mode::AbsoluteX => word(memory, operand).wrapping_add(u16::from(cpu.x)),
        Mode::AbsoluteY => word(memory, operand).wrapping_add(u16::from(cpu.y)),
        Mode::IndirectX => zero_page(memory, memory.read(operand).wrapping_add(cpu.x)),
        Mode::IndirectY => {
            zero_page(memory, memory.read(operand)).wrapping_add(u16::from(cpu.y))
        }
        Mode::Indirect => same_page(memory, word(memory, operand)),
        Mode::Relative => cpu
            .pc
            .wrapping_add(2)
            .wrapping_add(distance(memory.read(operand))),
    }
}

/// The number of a low and a high byte.
pub fn joined(low: u8, high: u8) -> u16
    ensures { result ≡ low + 256 * high }
{
    u16::from_le_bytes([low, high])
}

/// The two bytes at a place, the low one first; the place after the last is 0.
fn word(memory: &Memory, place: u16) -> u16
    ensures { result ≡ word_at (slice_index memory.now) place }
{
    joined(memory.read(place), memory.read(place.wrapping_add(1)))
}

/// The two bytes at a place of page 0; after the last place comes the first.
fn zero_page(memory: &Memory, place: u8) -> u16
    ensures { result ≡ zero_page_word (slice_index memory.now) place }
{
    joined(
        memory.read(u16::from(place)),
        memory.read(u16::from(place.wrapping_add(1))),
    )
}

/// The two bytes at a place, where the second is read from the page of the first.
fn same_page(memory: &Memory, place: u16) -> u16
    ensures { result ≡ same_page_word (slice_index memory.now) place }
{
    joined(
        memory.read(place),
        memory.read(256 * (place / 256) + (place % 256 + 1) % 256),
    )
}

/// A displacement byte as a number to add mod 65,536.
fn distance(byte: u8) -> u16
    ensures value { result ≡ displacement byte }
    ensures bound { result < MEMORY_SIZE }
{
    if byte < 128 {
        u16::from(byte)
    } else {
        u16::from(byte) + 0xFF00
    }
}
