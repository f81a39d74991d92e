//! Facts about runs of machine code, each the contract of a function that does nothing.

ghost use Rattle.code_runs.specs.Calls.{CallsBeginSo, MachinesFollowRuns, RunsAreCalls, RunsStayInside};
ghost use Rattle.code_runs.specs.Cycles.{CyclesAdd, StepsTakeCycles};
ghost use Rattle.code_runs.specs.Steps.{BranchSteps, CompareSteps, CountSteps, FlagSteps, JumpSteps, LoadSteps};
ghost use Rattle.code_runs.specs.Steps.{LogicSteps, ShiftSteps, StackSteps, SumSteps, TransferSteps};
ghost use Rattle.code_runs.specs.Decoded.{BranchesStand, CodeStays, StandAlone, StandByByte, StandByWord, StandingHasEffect};

/// A run from the entry of a call to address 0, with the stack pointer back, is that call, in the run's number of
/// steps and clock cycles. The machine writes at the run's places alone; each other place has the byte that it had.
pub fn runs_are_calls()
    ensures machines { MachinesFollowRuns }
    ensures inside { RunsStayInside }
    ensures calls { RunsAreCalls }
    ensures entry { CallsBeginSo }
{}

/// An instruction stands where its bytes do, in every mode. One that stands at the program counter has the effect of
/// its name at the place that its mode and its operand give; and code still stands where its bytes are the same,
/// whatever the rest of memory holds.
pub fn instructions_that_stand()
    ensures alone { StandAlone }
    ensures bytes { StandByByte }
    ensures words { StandByWord }
    ensures branches { BranchesStand }
    ensures effects { StandingHasEffect }
    ensures stay { CodeStays }
{}

/// What a step of each instruction but BRK does, by its name and in any of its modes: the registers that it leads to,
/// and where it writes which byte.
pub fn instructions_step()
    ensures loads { LoadSteps }
    ensures transfers { TransferSteps }
    ensures logic { LogicSteps }
    ensures sums { SumSteps }
    ensures compares { CompareSteps }
    ensures shifts { ShiftSteps }
    ensures counts { CountSteps }
    ensures flags { FlagSteps }
    ensures branches { BranchSteps }
    ensures jumps { JumpSteps }
    ensures stack { StackSteps }
{}

/// A step takes the clock cycles of the instruction that stands there, and a run those of its parts.
pub fn runs_take_cycles()
    ensures steps { StepsTakeCycles }
    ensures add { CyclesAdd }
{}
