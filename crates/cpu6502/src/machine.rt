//! A processor and its memory: one step, and a call.

ghost use Rattle.std.specs.Prelude.{◌≡◌, ℕ, ◌≤◌, Ok, Err, OnOk, OnErr, IfOk, IfErr, ◌++◌, [], List};
ghost use Rattle.std.specs.Prelude.{◌↔◌, IsTrue};
ghost use Rattle.cpu6502.specs.Step.{step, changed, next_cycles};
ghost use Rattle.cpu6502.specs.Call.{entered, HasReturned, Called, FailsBy, writes_in, call_cycles, cost_of};
ghost use Rattle.cpu6502.specs.declared.log.SidWrite.{SidWrite};
ghost use Rattle.cpu6502.specs.Log.{log_of, sid_writes};

use crate::cpu::Cpu;
use crate::cycles::{cycles, next_cycles};
use crate::effect::Effect;
use crate::execute::{effect, next_effect};
use crate::instruction::fetched;
use crate::log::WriteLog;
use crate::memory::Memory;
use crate::stack::stack;
use crate::stop::{CallStop, Stop};

/// A processor and its memory.
#[derive(Drop)]
pub struct Machine {
    /// The registers.
    pub cpu: Cpu,
    /// The 65,536 bytes.
    pub memory: Memory,
}

/// What a call took that returned.
#[derive(Clone, Copy, Debug, PartialEq, Eq)]
pub struct CallCost {
    /// Its steps.
    pub steps: u32,
    /// Their clock cycles, at most 7 for each.
    pub cycles: u64,
}

/// The byte that a caller pushes twice, so that a return leads to address 0.
pub const RETURN_BYTE: u8 = 0xFF;

impl Machine {
    /// Does the instruction at the program counter.
    ///
    /// # Errors
    ///
    /// [`Stop::Illegal`] at an opcode with no row, [`Stop::Break`] at BRK, and [`Stop::Decimal`] at ADC or SBC with the
    /// decimal flag set. The machine stays as it was.
    pub fn step(&mut self) -> Result<(), Stop>
        ensures done { OnOk result (step self.old ≡ Ok self.new) }
        ensures stopped { IfErr result (λ stop. step self.old ≡ Err stop) }
        ensures same { OnErr result (self.new ≡ self.old) }
    {
        let done = next_effect(&self.memory, self.cpu)?;
        self.take(&done);
        Ok(())
    }

    /// The clock cycles of the instruction at the program counter, 2 to 7; 0 where [`Machine::step`] stops.
    pub fn cycles(&self) -> u8
        ensures { result ≡ next_cycles self.now }
    {
        next_cycles(&self.memory, self.cpu)
    }

    /// Calls the code at an address with a number in the accumulator: pushes `$FF` twice and steps until the program
    /// counter is 0 and the stack pointer is what it was before the pushes. Answers the number of steps, at most
    /// `budget`, and their clock cycles. The log is emptied first, and then holds what the call writes to the SID, up to its
    /// end or its stop.
    ///
    /// # Errors
    ///
    /// [`CallStop::Stopped`] where a step stops before the call has returned, and [`CallStop::Budget`] where `budget`
    /// steps are made and it has not. The machine stays where the last step left it.
    pub fn call(
        &mut self,
        address: u16,
        a: u8,
        budget: u32,
        log: &mut WriteLog,
    ) -> Result<CallCost, CallStop>
        ensures returned { IfOk result (λ cost. Called self.old address a cost.steps self.new) }
        ensures cycles { IfOk result (λ cost. cost.cycles ≡ call_cycles self.old address a cost.steps) }
        ensures in_budget { IfOk result (λ cost. cost.steps ≤ budget) }
        ensures failed { IfErr result
            (λ reason. FailsBy self.old address a budget reason self.new) }

        ensures returns { (steps : ℕ) (after : Machine) → Called self.old address a steps after →
            steps ≤ budget → result ≡ Ok (cost_of self.old address a steps) }
        ensures fails { (reason : CallStop) (after : Machine) →
            FailsBy self.old address a budget reason after → result ≡ Err reason }

        ensures log { IfOk result
            (λ cost. log.new ≡
            log_of (sid_writes (writes_in cost.steps (entered self.old address a)))) }
        ensures log_failed { OnErr result
            (log.new ≡ log_of (sid_writes (writes_in budget (entered self.old address a)))) }
    {
        log.clear();
        let home = self.cpu.sp;
        self.enter(address, a);
        let mut steps: u32 = 0;
        let mut cycles: u64 = 0;
        'stepping: while !self.is_back(home) {
            if steps == budget {
                return Err(CallStop::Budget);
            }
            match self.step_noted(log) {
                Ok(taken) => cycles += u64::from(taken),
                Err(stop) => return Err(CallStop::Stopped(stop)),
            }
            steps += 1;
        }
        Ok(CallCost { steps, cycles })
    }

    /// Whether two machines are in the same state: in their registers, flags and bytes.
    pub fn is_same(&self, other: &Machine) -> bool
        ensures { IsTrue result ↔ (self.now ≡ other.now) }
    {
        self.cpu == other.cpu && self.memory.is_same(&other.memory)
    }

    /// Takes over the state of another machine.
    pub fn copy_from(&mut self, other: &Machine)
        ensures { self.new ≡ other.now }
    {
        self.cpu = other.cpu;
        self.memory.copy_from(&other.memory);
    }

    /// Pushes `$FF` twice, and goes to an address with a number in the accumulator.
    fn enter(&mut self, address: u16, a: u8)
        ensures { self.new ≡ entered self.old address a }
    {
        let sp = self.cpu.sp;
        self.memory.write(stack(sp), RETURN_BYTE);
        self.memory.write(stack(sp.wrapping_sub(1)), RETURN_BYTE);
        self.cpu.a = a;
        self.cpu.sp = sp.wrapping_sub(2);
        self.cpu.pc = address;
    }

    /// Whether a call that began with this stack pointer has returned.
    fn is_back(&self, home: u8) -> bool
        ensures { IsTrue result ↔ ((self.now.cpu.pc ≡ 0) × (self.now.cpu.sp ≡ home)) }
    {
        self.cpu.pc == 0 && self.cpu.sp == home
    }

    /// Does the instruction at the program counter, and notes what it writes. Answers its clock cycles.
    ///
    /// # Errors
    ///
    /// As [`Machine::step`]: the machine and the log stay as they were.
    fn step_noted(&mut self, log: &mut WriteLog) -> Result<u8, Stop>
        ensures done { OnOk result (step self.old ≡ Ok self.new) }
        ensures cycles { IfOk result (λ taken. taken ≡ next_cycles self.old) }
        ensures stopped { IfErr result (λ stop. step self.old ≡ Err stop) }
        ensures same { OnErr result (self.new ≡ self.old) }
        ensures noted { (before : List SidWrite) → log.old ≡ log_of before →
            log.new ≡ log_of (before ++ sid_writes (writes_in 1 self.old)) }
    {
        let instruction = fetched(&self.memory, self.cpu)?;
        let effect = effect(instruction, &self.memory, self.cpu)?;
        let taken = cycles(instruction, self.cpu);
        effect.writes.note_in(log);
        self.take(&effect);
        Ok(taken)
    }

    /// Takes over what an instruction does.
    fn take(&mut self, effect: &Effect)
        ensures { self.new ≡ changed self.old effect.now }
    {
        self.cpu = effect.cpu;
        effect.writes.put_into(&mut self.memory);
    }
}
