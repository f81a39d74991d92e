//! The code of blocks and of entrances, and its runs.

ghost use Rattle.std.specs.Prelude.{◌≡◌, ◌≤◌, length, IfOk, OnOk};
ghost use Rattle.scope_lines.specs.Readings.{is_block};

use crate::bench::{Bench, same_registers};
use crate::difference::{Difference, same};
use crate::reach::is_block;
use crate::setup::{Entrance, Setup};
use crate::wants::Wants;
use asm6502::{Assembled, Item, Line as Code, Listing, Operand, PartSet, assemble};
use cpu6502::{CallStop, Cpu, Mnemonic, Mode, WriteLog};
use scope_calls::{Setup as Plan, entrance_size, push_entrance};
use scope_lines::{Line, Place, lower, size_of};
use std::alloc::Global;

/// The label from which places are counted.
const CODE: u16 = 0x4000;

/// The most lines of a block.
const MOST_LINES: usize = 10_000;

/// The bytes of a jump.
const JUMP: u32 = 3;

/// The most instructions that are run.
const BUDGET: u32 = 1_000_000;

/// How code is come to.
#[derive(Clone, Copy)]
enum Way {
    /// From its first line to the one behind the last.
    Through,
    /// By a call, from which it returns.
    Called,
}

/// Code, with the bytes behind it, and how many bytes it is to take without these.
#[derive(Drop)]
struct Run {
    listing: Listing,
    size: u32,
    way: Way,
}

/// Whether lines are a block.
///
/// # Errors
///
/// There are more than 10,000.
fn are_block(lines: &[Line]) -> Result<bool, Difference>
    ensures block { IfOk result (λ are. are ≡ is_block lines.now) }
    ensures short { OnOk result (length lines.now ≤ 10000) }
{
    if lines.len() > MOST_LINES {
        return Err(Difference::Unread);
    }
    Ok(is_block(lines))
}

/// A line that is always kept.
fn line(item: Item) -> Code {
    Code { part: 255, item }
}

/// The lines of a block behind their label; none where they are no block.
fn block_run(alloc: Global, setup: &Setup, block: &[Line]) -> Result<Option<Run>, Difference> {
    if !are_block(block)? {
        return Ok(None);
    }
    let around = Place {
        label: CODE,
        first: 0,
        pointer: setup.pointer,
        conditions: setup.conditions,
    };
    let mut lines = lower(alloc, block, around)?;
    let mut listing = Listing::new(alloc);
    listing.push(line(Item::Label(CODE)))?;
    listing.append(&mut lines)?;
    Ok(Some(Run {
        listing,
        size: u32::from(size_of(block, setup.conditions)),
        way: Way::Through,
    }))
}

/// The jump to an entrance, and its label.
fn jump(alloc: Global) -> Result<Listing, Difference> {
    let mut listing = Listing::new(alloc);
    listing.push(line(Item::Code(Mnemonic::Jmp, Mode::Absolute, Operand::Label(CODE, 0))))?;
    listing.push(line(Item::Label(CODE)))?;
    Ok(listing)
}

/// A jump to an entrance, and its lines; none where those of its blocks are none.
fn entrance_run(
    alloc: Global,
    setup: &Setup,
    block: &[Line],
    entrance: &Entrance,
) -> Result<Option<Run>, Difference> {
    let plan = Plan {
        label: CODE,
        numbered: entrance.numbered.is_some(),
        pointer: setup.pointer,
        conditions: setup.conditions,
    };
    if !are_block(block)? {
        return Ok(None);
    }
    let mut listing = jump(alloc)?;
    let size = match &entrance.voices {
        None => {
            push_entrance(alloc, &mut listing, plan, block, None)?;
            entrance_size(plan, block, None)
        }
        Some(voices) => {
            if !are_block(voices)? {
                return Ok(None);
            }
            push_entrance(alloc, &mut listing, plan, block, Some(voices))?;
            entrance_size(plan, block, Some(voices))
        }
    };
    Ok(Some(Run {
        listing,
        size: size.saturating_add(JUMP),
        way: Way::Called,
    }))
}

impl Run {
    /// The bytes at an origin.
    fn assembled(&self, alloc: Global, origin: u16) -> Result<Assembled, Difference> {
        if !self.listing.is_within_limits() {
            return Err(Difference::Unread);
        }
        match assemble(alloc, &self.listing, origin, PartSet(0)) {
            Ok(assembled) => Ok(assembled),
            Err(fault) => Err(Difference::Refused(fault)),
        }
    }

    /// Runs the code at a place up to an end, and answers in how many steps, and where it comes to.
    fn follow(
        &self,
        bench: &mut Bench,
        begin: Cpu,
        place: u16,
        end: u16,
    ) -> Result<(u32, u16), Difference> {
        bench.machine.cpu = Cpu { pc: place, ..begin };
        match self.way {
            Way::Through => Ok((bench.step_to(end, BUDGET)?, end)),
            Way::Called => Ok((called(bench, place, begin.a)?, 0)),
        }
    }

    /// Runs the code at an origin, and sees that all is as it is wanted.
    fn run_at(
        &self,
        alloc: Global,
        bench: &mut Bench,
        setup: &Setup,
        wants: &Wants,
        origin: u16,
    ) -> Result<(), Difference> {
        let after = wants.after()?;
        let code = self.assembled(alloc, origin)?;
        let bytes = code.bytes.as_slice();
        let size = bytes.len().saturating_sub(setup.bytes.len()).min(0xffff) as u16;
        same("the size", u32::from(size), self.size)?;
        wants.check_code(bytes, u32::from(size))?;
        bench.begin();
        bench.put(origin, bytes);
        let base = origin.wrapping_add(size);
        let (steps, pc) = self.follow(bench, setup.begin, origin, base)?;
        wants.put_into(bench, base.wrapping_sub(setup.first));
        wants.check_steps(steps)?;
        same_registers(bench.machine.cpu, Cpu { pc, ..after })?;
        bench.compare()
    }
}

/// Calls the code at a place with a number in A, and answers in how many steps it returns.
fn called(bench: &mut Bench, place: u16, a: u8) -> Result<u32, Difference> {
    let mut log = WriteLog::new();
    match bench.machine.call(place, a, BUDGET, &mut log) {
        Ok(cost) => Ok(cost.steps),
        Err(CallStop::Stopped(stop)) => Err(Difference::Stopped(stop)),
        Err(CallStop::Budget) => Err(Difference::Endless),
    }
}

/// Runs a block, or an entrance, at each origin.
///
/// # Errors
///
/// Something differs from what is wanted; or out of memory.
pub fn run_all(
    alloc: Global,
    bench: &mut Bench,
    setup: &Setup,
    entrance: Option<&Entrance>,
    wants: &Wants,
) -> Result<(), Difference> {
    let Some(block) = &setup.block else {
        return Err(Difference::WantsNothing);
    };
    let found = match entrance {
        None => block_run(alloc, setup, block)?,
        Some(entrance) => entrance_run(alloc, setup, block, entrance)?,
    };
    let Some(mut run) = found else {
        return wants.check_no_block();
    };
    if setup.origins.is_empty() {
        return Err(Difference::WantsNothing);
    }
    setup.push_bytes(alloc, &mut run.listing)?;
    for origin in &setup.origins {
        run.run_at(alloc, bench, setup, wants, *origin)?;
    }
    Ok(())
}
