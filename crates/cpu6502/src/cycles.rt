//! The clock cycles of the instruction at the program counter.

ghost use Rattle.std.specs.Prelude.{◌≡◌, ℕ, ◌≤◌, ◌+◌, ◌&&◌, Some, None, slice_index};
ghost use Rattle.cpu6502.specs.Effects.{address_of, stop_of};
ghost use Rattle.cpu6502.specs.Fetch.{fetched};
ghost use Rattle.cpu6502.specs.Cycles.{crosses, is_read, is_paged, index_cycles, branch_cycles, cycles};

use crate::branch::is_taken;
use crate::cpu::{Cpu, one_if};
use crate::execute::stop;
use crate::instruction::{Instruction, fetched};
use crate::memory::Memory;
use crate::mnemonic::{Mnemonic, Mode};
use crate::table::Row;

/// How many cycles the instruction at the program counter takes; 0 where it stops.
pub fn next_cycles(memory: &Memory, cpu: Cpu) -> u8
    ensures { result ≡ cycles (slice_index memory.now) cpu }
{
    let Ok(instruction) = fetched(memory, cpu) else {
        return 0;
    };
    match stop(instruction.row.mnemonic, cpu.pc, cpu) {
        Some(_) => 0,
        None => cycles(instruction, cpu),
    }
}

/// How many cycles this instruction takes, which is the one at the program counter and doesn't stop.
pub fn cycles(instruction: Instruction, cpu: Cpu) -> u8
    requires { instruction.row.cycles ≤ 7 }
    ensures { (at : ℕ → ℕ) → fetched at cpu ≡ Some instruction →
        stop_of instruction.row.mnemonic cpu.pc cpu ≡ None → result ≡ cycles at cpu }
{
    let Instruction { row, place } = instruction;
    let next = cpu.pc.wrapping_add(2);
    row.cycles
        + index_cycles(row, place, cpu)
        + branch_cycles(is_taken(row.mnemonic, cpu), next, place)
}

/// One where a byte is read at a place that an index has led to from another page.
fn index_cycles(row: Row, place: u16, cpu: Cpu) -> u8
    ensures cycles { (at : ℕ → ℕ) → place ≡ address_of row.mode at cpu.pc cpu.x cpu.y →
        result ≡ index_cycles row.mnemonic row.mode (address_of row.mode at cpu.pc 0 0) place }
    ensures few { result ≤ 1 }
{
    one_if(leaves_page(row.mode, place, cpu) && is_read(row.mnemonic))
}

/// Whether an index has led to this place from another page: then the low byte of the place is below the index.
fn leaves_page(mode: Mode, place: u16, cpu: Cpu) -> bool
    ensures { (at : ℕ → ℕ) → place ≡ address_of mode at cpu.pc cpu.x cpu.y →
        result ≡ is_paged mode && crosses (address_of mode at cpu.pc 0 0) place }
{
    let low = (place % 256) as u8;
    match mode {
        Mode::AbsoluteX => low < cpu.x,
        Mode::AbsoluteY | Mode::IndirectY => low < cpu.y,
        _ => false,
    }
}

/// Whether two places are in different pages.
fn crosses(from: u16, to: u16) -> bool
    ensures { result ≡ crosses from to }
{
    from / 256 != to / 256
}

/// Whether an instruction reads a byte, writes none, and may have an index: it takes one cycle more where that leads into
/// another page.
pub fn is_read(mnemonic: Mnemonic) -> bool
    ensures { result ≡ is_read mnemonic }
{
    matches!(
        mnemonic,
        Mnemonic::Adc
            | Mnemonic::And
            | Mnemonic::Cmp
            | Mnemonic::Eor
            | Mnemonic::Lda
            | Mnemonic::Ldx
            | Mnemonic::Ldy
            | Mnemonic::Ora
            | Mnemonic::Sbc
    )
}

/// Whether a mode adds its index to a place of two bytes, which may lead into another page.
pub fn is_paged(mode: Mode) -> bool
    ensures { result ≡ is_paged mode }
{
    matches!(mode, Mode::AbsoluteX | Mode::AbsoluteY | Mode::IndirectY)
}

/// One where a branch is taken, and two where that leads into another page than that of the next instruction.
fn branch_cycles(taken: Option<bool>, next: u16, place: u16) -> u8
    ensures cycles { result ≡ branch_cycles taken next place }
    ensures few { result ≤ 2 }
{
    if taken == Some(true) {
        1 + one_if(crosses(next, place))
    } else {
        0
    }
}
