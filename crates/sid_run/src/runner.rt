//! A loaded file.

use crate::memory::{REGISTERS, put_image, sid_registers};
use cpu6502::{CallStop, Cpu, MEMORY_SIZE, Machine, Memory, NoMemory, WriteLog};
use psid::Psid;
use std::alloc::Global;
use std::marker::Model;

/// The steps that a call may take.
pub const MOST_STEPS: u32 = 200_000;

/// The registers before the first call: all 0 with clear flags, but for the stack pointer.
const CLEARED: Cpu = Cpu {
    a: 0,
    x: 0,
    y: 0,
    sp: 0xFF,
    pc: 0,
    n: false,
    v: false,
    d: false,
    i: false,
    z: false,
    c: false,
};

/// A file that is loaded into a machine of its own. Contracts see its machine, the two addresses, why it stopped, the
/// steps of the last call that returned and their clock cycles, and what the last call wrote to the SID.
#[derive(Drop)]
pub struct Runner {
    machine: Machine,
    init: u16,
    play: u16,
    stopped: Option<CallStop>,
    spent: u32,
    cycles: u64,
    log: WriteLog,
}

impl Model for Runner {
    ghost use Rattle.sid_run.specs.State.{RunnerState};

    ghost Value = { RunnerState };

    ghost view = { λ runner. record {
      machine = runner.machine;
      init = runner.init;
      play = runner.play;
      stopped = runner.stopped;
      spent = runner.spent;
      cycles = runner.cycles;
      log = runner.log;
    } };
}

impl Runner {
    ghost use Rattle.std.specs.Prelude.{◌≡◌, ◌+◌, ◌≤◌, length, IfOk};
    ghost use Rattle.sid_run.specs.State.{loaded};
    ghost use Rattle.sid_run.specs.Calls.{AnswersCall};

    /// Loads a file: memory 0 but for the image, registers 0, flags clear, stack pointer `$FF`.
    ///
    /// # Errors
    ///
    /// Out of memory.
    pub fn load(alloc: Global, psid: &Psid) -> Result<Runner, NoMemory>
        requires { psid.now.load + length psid.now.image ≤ MEMORY_SIZE }
        ensures { IfOk result (λ runner. runner ≡ loaded psid.now) }
    {
        let mut memory = Memory::filled(alloc, 0)?;
        put_image(&mut memory, psid.load, psid.image.as_slice());
        Ok(Runner {
            machine: Machine {
                cpu: CLEARED,
                memory,
            },
            init: psid.header.init,
            play: psid.header.play,
            stopped: None,
            spent: 0,
            cycles: 0,
            log: WriteLog::new(),
        })
    }

    /// Calls init with the number of a song, from 0. Answers the SID's registers after it, or why the call didn't
    /// return in 200,000 steps.
    ///
    /// # Errors
    ///
    /// The reason why it didn't return. A runner that stopped answers the same reason again.
    pub fn init(&mut self, subtune: u8) -> Result<[u8; REGISTERS], CallStop>
        ensures { AnswersCall self.old.init subtune MOST_STEPS self.old self.new result }
    {
        self.call_at(self.init, subtune, MOST_STEPS)
    }

    /// Calls play, with the accumulator as it stands. Answers the SID's registers after it, or why the call didn't
    /// return in 200,000 steps.
    ///
    /// # Errors
    ///
    /// The reason why it didn't return. A runner that stopped answers the same reason again.
    pub fn play(&mut self) -> Result<[u8; REGISTERS], CallStop>
        ensures { AnswersCall self.old.play self.old.machine.cpu.a MOST_STEPS
            self.old self.new result }
    {
        self.call_at(self.play, self.machine.cpu.a, MOST_STEPS)
    }

    /// What the last call wrote to the SID; nothing before the first.
    pub fn log(&self) -> &WriteLog
        ensures { result.now ≡ self.now.log }
    {
        &self.log
    }

    /// The number of steps of the last call that returned; 0 before the first such call.
    pub fn spent(&self) -> u32
        ensures { result ≡ self.now.spent }
    {
        self.spent
    }

    /// The clock cycles of the last call that returned, at most 7 for each step; 0 before the first such call.
    pub fn cycles(&self) -> u64
        ensures { result ≡ self.now.cycles }
    {
        self.cycles
    }

    /// The machine as the last call left it, or as it was loaded.
    pub fn machine(&self) -> &Machine
        ensures { result.now ≡ self.now.machine }
    {
        &self.machine
    }

    /// Calls an address with a number in the accumulator, unless the runner has stopped.
    ///
    /// # Errors
    ///
    /// The call met a stop, or used up its budget; or a call before it did.
    fn call_at(&mut self, address: u16, a: u8, budget: u32) -> Result<[u8; REGISTERS], CallStop>
        ensures { AnswersCall address a budget self.old self.new result }
    {
        if let Some(reason) = self.stopped {
            return Err(reason);
        }
        match self.machine.call(address, a, budget, &mut self.log) {
            Ok(cost) => {
                self.spent = cost.steps;
                self.cycles = cost.cycles;
                Ok(sid_registers(&self.machine.memory))
            }
            Err(reason) => {
                self.stopped = Some(reason);
                Err(reason)
            }
        }
    }
}
