//! The effect of the instruction at the program counter.

ghost use Rattle.std.specs.Prelude.{◌≡◌, Some, slice_index};
ghost use Rattle.cpu6502.specs.Fetch.{fetched};
ghost use Rattle.cpu6502.specs.Effects.{effect_of, done_by, effect, data_effect, other_effect, stop_of, moved};

use crate::arithmetic::arithmetic;
use crate::branch::branch;
use crate::compare::compare;
use crate::count::count;
use crate::cpu::Cpu;
use crate::effect::Effect;
use crate::flags::flag;
use crate::instruction::{Instruction, fetched};
use crate::jump::jump;
use crate::load::load;
use crate::logic::logic;
use crate::memory::Memory;
use crate::mnemonic::Mnemonic;
use crate::shift::{shift, shift_accumulator};
use crate::stack::on_stack;
use crate::stop::Stop;
use crate::transfer::transfer;

/// What the instruction at the program counter does.
///
/// # Errors
///
/// It has no effect: its byte has no row, it is BRK, or it is ADC or SBC with the decimal flag set.
pub fn next_effect(memory: &Memory, cpu: Cpu) -> Result<Effect, Stop>
    ensures { result ≡ effect (slice_index memory.now) cpu }
{
    let instruction = fetched(memory, cpu)?;
    effect(instruction, memory, cpu)
}

/// What this instruction does, which is the one at the program counter.
///
/// # Errors
///
/// It is BRK, or it is ADC or SBC with the decimal flag set.
pub fn effect(instruction: Instruction, memory: &Memory, cpu: Cpu) -> Result<Effect, Stop>
    requires { fetched (slice_index memory.now) cpu ≡ Some instruction }
    ensures { result ≡ effect (slice_index memory.now) cpu }
{
    let row = instruction.row;
    let next = after(cpu, row.mode.length());
    if row.mode.is_accumulator() {
        Ok(shift_accumulator(row.mnemonic, next))
    } else {
        execute(row.mnemonic, cpu.pc, instruction.place, memory, next)
    }
}

/// The registers with the program counter after an instruction of this many bytes.
fn after(cpu: Cpu, length: u8) -> Cpu
    ensures { result ≡ moved cpu length }
{
    Cpu {
        pc: cpu.pc.wrapping_add(u16::from(length)),
        ..cpu
    }
}

/// What an instruction does whose own place and whose operand's place are given, from registers whose program
/// counter is after it.
///
/// # Errors
///
/// It is BRK, or it is ADC or SBC with the decimal flag set.
fn execute(
    mnemonic: Mnemonic,
    own: u16,
    place: u16,
    memory: &Memory,
    cpu: Cpu,
) -> Result<Effect, Stop>
    ensures { result ≡ effect_of mnemonic own place (slice_index memory.now) cpu }
{
    if let Some(stop) = stop(mnemonic, own, cpu) {
        return Err(stop);
    }
    if let Some(effect) = on_data(mnemonic, place, memory, cpu) {
        return Ok(effect);
    }
    match other(mnemonic, own, place, memory, cpu) {
        Some(effect) => Ok(effect),
        None => unreachable!(),
    }
}

/// Where an instruction stops instead of its effect.
pub fn stop(mnemonic: Mnemonic, own: u16, cpu: Cpu) -> Option<Stop>
    ensures { result ≡ stop_of mnemonic own cpu }
{
    match mnemonic {
        Mnemonic::Brk => Some(Stop::Break { at: own }),
        Mnemonic::Adc | Mnemonic::Sbc => {
            if cpu.d {
                Some(Stop::Decimal { at: own })
            } else {
                None
            }
        }
        _ => None,
    }
}

/// What the instructions do that work on bytes.
fn on_data(mnemonic: Mnemonic, place: u16, memory: &Memory, cpu: Cpu) -> Option<Effect>
    ensures { result ≡ data_effect mnemonic place (slice_index memory.now) cpu }
{
    if let Some(effect) = load(mnemonic, place, memory, cpu) {
        return Some(effect);
    }
    if let Some(effect) = arithmetic(mnemonic, place, memory, cpu) {
        return Some(effect);
    }
    if let Some(effect) = compare(mnemonic, place, memory, cpu) {
        return Some(effect);
    }
    if let Some(effect) = logic(mnemonic, place, memory, cpu) {
        return Some(effect);
    }
    if let Some(effect) = shift(mnemonic, place, memory, cpu) {
        return Some(effect);
    }
    count(mnemonic, place, memory, cpu)
}

/// What the others do.
fn other(mnemonic: Mnemonic, own: u16, place: u16, memory: &Memory, cpu: Cpu) -> Option<Effect>
    ensures { result ≡ other_effect mnemonic own place (slice_index memory.now) cpu }
{
    if let Some(effect) = branch(mnemonic, place, cpu) {
        return Some(effect);
    }
    if let Some(effect) = jump(mnemonic, own, place, memory, cpu) {
        return Some(effect);
    }
    if let Some(effect) = on_stack(mnemonic, memory, cpu) {
        return Some(effect);
    }
    if let Some(effect) = flag(mnemonic, cpu) {
        return Some(effect);
    }
    transfer(mnemonic, cpu)
}
