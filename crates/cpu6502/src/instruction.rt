//! The instruction at the program counter.

ghost use Rattle.std.specs.Prelude.{◌≡◌, ◌≤◌, IfOk, IfErr, Some, Err, slice_index};
ghost use Rattle.cpu6502.specs.Fetch.{fetched};
ghost use Rattle.cpu6502.specs.Effects.{effect};
ghost use Rattle.cpu6502.specs.Cycles.{cycles};

use crate::address::operand_place;
use crate::cpu::Cpu;
use crate::memory::Memory;
use crate::opcodes::row_of;
use crate::stop::Stop;
use crate::table::Row;

/// An instruction that is decoded: its row of the table, and the place of its operand.
#[derive(Clone, Copy, Debug)]
pub struct Instruction {
    /// The row of its opcode.
    pub row: Row,
    /// The place of its operand; for a branch the place that it goes to, and 0 where there is no operand.
    pub place: u16,
}

/// The instruction at the program counter.
///
/// # Errors
///
/// [`Stop::Illegal`] where its opcode has no row.
pub fn fetched(memory: &Memory, cpu: Cpu) -> Result<Instruction, Stop>
    ensures fetched { IfOk result
        (λ instruction. fetched (slice_index memory.now) cpu ≡ Some instruction) }
    ensures quick { IfOk result (λ instruction. instruction.row.cycles ≤ 7) }
    ensures illegal { IfErr result (λ stop. effect (slice_index memory.now) cpu ≡ Err stop) }
    ensures none { IfErr result (λ stop. cycles (slice_index memory.now) cpu ≡ 0) }
{
    let Some(row) = row_of(memory.read(cpu.pc)) else {
        return Err(Stop::Illegal { at: cpu.pc });
    };
    let place = operand_place(row.mode, memory, cpu);
    Ok(Instruction { row, place })
}
