//! Cases of machines: bytes and registers, and what steps and calls make of them.

use crate::bench::{Bench, IDLE, same_registers};
use crate::difference::{Difference, same, same_byte};
use crate::words::Reader;
use case_text::look_up;
use cpu6502::{CallCost, CallStop, Cpu, SidWrite, Stop, WriteLog};
use std::alloc::Global;

/// A case of a machine: its lines are done one after the other.
#[derive(Drop)]
pub struct MachineCase {
    log: WriteLog,
    /// Whether registers were compared.
    wants: bool,
    /// Whether something was done behind that.
    is_open: bool,
}

/// What a line of a case says.
#[derive(Clone, Copy)]
enum Head {
    Does(Deed),
    Takes,
    At,
    Writes,
    Log,
    After,
}

/// What a line does.
#[derive(Clone, Copy)]
enum Deed {
    Cpu,
    Put,
    Step,
    Call,
}

/// What a line says, by its first word.
const HEADS: [(&[u8], Head); 9] = [
    (b"cpu", Head::Does(Deed::Cpu)),
    (b"put", Head::Does(Deed::Put)),
    (b"step", Head::Does(Deed::Step)),
    (b"call", Head::Does(Deed::Call)),
    (b"takes", Head::Takes),
    (b"at", Head::At),
    (b"writes", Head::Writes),
    (b"log", Head::Log),
    (b"after", Head::After),
];

/// A stop of each name, at no matter which place.
const STOPS: [(&[u8], Stop); 3] = [
    (b"Illegal", Stop::Illegal { at: 0 }),
    (b"Break", Stop::Break { at: 0 }),
    (b"Decimal", Stop::Decimal { at: 0 }),
];

/// Reads all registers.
fn registers(reader: &mut Reader<'_>) -> Cpu {
    let a = reader.byte();
    let x = reader.byte();
    let y = reader.byte();
    let sp = reader.byte();
    let pc = reader.short();
    reader.flags(Cpu {
        a,
        x,
        y,
        sp,
        pc,
        ..IDLE
    })
}

/// Reads why a step stops.
fn stop(reader: &mut Reader<'_>) -> Stop {
    let stop = reader.one_of(&STOPS, Stop::Break { at: 0 });
    let at = reader.short();
    match stop {
        Stop::Illegal { .. } => Stop::Illegal { at },
        Stop::Break { .. } => Stop::Break { at },
        Stop::Decimal { .. } => Stop::Decimal { at },
    }
}

/// Reads how a call ends.
fn end_of_call(reader: &mut Reader<'_>) -> Result<u32, CallStop> {
    if reader.takes(b"returns") {
        return Ok(reader.number());
    }
    if reader.takes(b"Budget") {
        return Err(CallStop::Budget);
    }
    Err(CallStop::Stopped(stop(reader)))
}

/// Makes one step, which is done, or stops as it is wanted.
fn step(bench: &mut Bench, reader: &mut Reader<'_>) -> Result<(), Difference> {
    if reader.peek().is_none() {
        return match bench.machine.step() {
            Ok(()) => Ok(()),
            Err(found) => Err(Difference::Stopped(found)),
        };
    }
    let wanted = stop(reader);
    reader.end()?;
    match bench.machine.step() {
        Ok(()) => Err(Difference::Done),
        Err(found) if found == wanted => Ok(()),
        Err(found) => Err(Difference::Stopped(found)),
    }
}

/// Sees that the next step takes so many clock cycles.
fn takes(bench: &Bench, reader: &mut Reader<'_>) -> Result<(), Difference> {
    let wanted = reader.number();
    reader.end()?;
    same("cycles", u32::from(bench.machine.cycles()), wanted)
}

/// Sees that a call ended as it is wanted.
fn same_end(
    found: Result<CallCost, CallStop>,
    wanted: Result<u32, CallStop>,
) -> Result<(), Difference> {
    match (found, wanted) {
        (Ok(cost), Ok(wanted)) => same("instructions", cost.steps, wanted),
        (Err(found), Err(wanted)) if found == wanted => Ok(()),
        (Ok(_), Err(_)) => Err(Difference::Done),
        (Err(CallStop::Stopped(stop)), _) => Err(Difference::Stopped(stop)),
        (Err(CallStop::Budget), _) => Err(Difference::Endless),
    }
}

/// Puts bytes into memory, or only wants them there.
fn bytes_at(
    alloc: Global,
    bench: &mut Bench,
    reader: &mut Reader<'_>,
    are_put: bool,
) -> Result<(), Difference> {
    let at = reader.short();
    let bytes = reader.some_bytes(alloc);
    reader.end()?;
    if are_put {
        bench.put(at, &bytes);
    } else {
        bench.want(at, &bytes);
    }
    Ok(())
}

impl MachineCase {
    /// No call was made, and nothing is wanted.
    pub fn new() -> MachineCase {
        MachineCase {
            log: WriteLog::new(),
            wants: false,
            is_open: false,
        }
    }

    /// Makes a call, which ends as it is wanted.
    fn call(&mut self, bench: &mut Bench, reader: &mut Reader<'_>) -> Result<(), Difference> {
        let address = reader.short();
        let a = reader.byte();
        let budget = reader.number();
        let wanted = end_of_call(reader);
        reader.end()?;
        let found = bench.machine.call(address, a, budget, &mut self.log);
        same_end(found, wanted)
    }

    /// Does what a line says.
    fn does(
        &mut self,
        alloc: Global,
        bench: &mut Bench,
        deed: Deed,
        reader: &mut Reader<'_>,
    ) -> Result<(), Difference> {
        self.is_open = true;
        match deed {
            Deed::Cpu => {
                bench.machine.cpu = registers(reader);
                reader.end()
            }
            Deed::Put => bytes_at(alloc, bench, reader, true),
            Deed::Step => step(bench, reader),
            Deed::Call => self.call(bench, reader),
        }
    }

    /// Sees that the log has the writes that a line has: a register and a byte each.
    fn check_log(&self, alloc: Global, reader: &mut Reader<'_>) -> Result<(), Difference> {
        let wanted = reader.bytes(alloc);
        reader.end()?;
        let writes = self.log.writes.as_slice();
        if wanted.len() % 2 != 0 {
            return Err(Difference::Unread);
        }
        let count = (wanted.len() / 2).min(0xffff_ffff) as u32;
        same("writes", writes.len().min(0xffff_ffff) as u32, count)?;
        same_writes(writes, &wanted)
    }

    /// Sees that so many writes were kept, and so many came beyond them.
    fn check_count(&self, reader: &mut Reader<'_>) -> Result<(), Difference> {
        let count = reader.number();
        let beyond = reader.number();
        reader.end()?;
        let kept = self.log.writes.as_slice().len().min(0xffff_ffff) as u32;
        same("writes", kept, count)?;
        same("writes beyond", self.log.beyond, beyond)
    }

    /// Sees that all registers are those of a line.
    fn check_registers(
        &mut self,
        bench: &Bench,
        reader: &mut Reader<'_>,
    ) -> Result<(), Difference> {
        let wanted = registers(reader);
        reader.end()?;
        self.wants = true;
        self.is_open = false;
        same_registers(bench.machine.cpu, wanted)
    }

    /// Reads a line of the case, and does it.
    pub fn read(
        &mut self,
        alloc: Global,
        bench: &mut Bench,
        head: &[u8],
        reader: &mut Reader<'_>,
    ) -> Result<(), Difference> {
        match look_up(&HEADS, head) {
            Some(Head::Does(deed)) => self.does(alloc, bench, deed, reader),
            Some(Head::Takes) => takes(bench, reader),
            Some(Head::At) => bytes_at(alloc, bench, reader, false),
            Some(Head::Writes) => self.check_log(alloc, reader),
            Some(Head::Log) => self.check_count(reader),
            Some(Head::After) => self.check_registers(bench, reader),
            None => Err(Difference::Unread),
        }
    }

    /// Sees that all that was done was compared, and that memory is as it is wanted.
    pub fn end(&self, bench: &Bench) -> Result<(), Difference> {
        if !self.wants {
            return Err(Difference::WantsNothing);
        }
        if self.is_open {
            return Err(Difference::Unread);
        }
        bench.compare()
    }
}

/// Sees that writes are these pairs of a register and a byte, as far as both go.
fn same_writes(writes: &[SidWrite], wanted: &[u8]) -> Result<(), Difference> {
    for (write, pair) in writes.iter().zip(wanted.chunks(2)) {
        if let [register, value] = pair {
            same_byte("a register", write.register, *register)?;
            same_byte("a value", write.value, *value)?;
        }
    }
    Ok(())
}
