//! Facts about the definitions of this crate, each the contract of a function that does nothing.

ghost use Rattle.cpu6502.specs.Opcodes.{OpcodesHaveRows, RowsHaveOpcodes};
ghost use Rattle.cpu6502.specs.Rows.{TableHas151Rows, RowsDiffer, CyclesAreCounted, ReadsHaveRows, StoresHaveRows};
ghost use Rattle.cpu6502.specs.Rows.{ChangesHaveRows, OthersHaveRows, UndocumentedBytesHaveNone, MissingModesHaveNone};
ghost use Rattle.cpu6502.specs.Manual.{CyclesAreInRange, EffectsTakeCycles, RowsHaveTheseCycles};
ghost use Rattle.cpu6502.specs.Call.{StepsTakeFewCycles};
ghost use Rattle.cpu6502.specs.Stops.{StopsHaveCauses};
ghost use Rattle.cpu6502.specs.Machines.{CallsKeepMachines, StepsKeepMachines};
ghost use Rattle.cpu6502.specs.Sums.{DifferencesAreOfNumbers, SumsAreOfNumbers};
ghost use Rattle.cpu6502.specs.WorkedCalls.{CallersPush, LogsHaveRoom, MemoryIsFull, SidStandsThere};
ghost use Rattle.cpu6502.specs.WorkedCycles.{BranchesCross, EachBranchTakes, EachReadCrosses, OthersDoNotCross, OthersTake};
ghost use Rattle.cpu6502.specs.WorkedCycles.{ReadsCross, RunsTake, StopsTakeNone};
ghost use Rattle.cpu6502.specs.WorkedModes.{ComparesInModes, CountsInModes, LoadsInModes, LogicInModes, ShiftsInModes};
ghost use Rattle.cpu6502.specs.WorkedModes.{StoresInModes, SumsInModes};
ghost use Rattle.cpu6502.specs.WorkedSteps.{Branches, Differences, JumpsAndReturns, LoadsAndStores, ShiftsAndCounts};
ghost use Rattle.cpu6502.specs.WorkedSteps.{Stack, Stops, Sums, TransfersAndFlags};

/// The decode table has 151 rows, no two of them alike, and `opcode` and `meaning` are each other's inverse over them.
pub fn opcode_is_inverse_of_meaning()
    ensures opcodes { OpcodesHaveRows }
    ensures rows { RowsHaveOpcodes }
    ensures differ { RowsDiffer }
    ensures count { TableHas151Rows }
{}

/// Rows as the manual prints them, the number of rows that take each number of cycles, and bytes and modes that have no
/// row.
pub fn worked_rows()
    ensures reads { ReadsHaveRows }
    ensures stores { StoresHaveRows }
    ensures changes { ChangesHaveRows }
    ensures others { OthersHaveRows }
    ensures cycles { CyclesAreCounted }
    ensures undocumented { UndocumentedBytesHaveNone }
    ensures missing { MissingModesHaveNone }
{}

/// Each row of the table has the cycles that the manual's tables have for what it does and its mode; and an instruction
/// takes cycles exactly where it has an effect, and then 2 to 7; so a call takes at most 7 for each of its steps.
pub fn cycles_are_the_manuals()
    ensures rows { RowsHaveTheseCycles }
    ensures effects { EffectsTakeCycles }
    ensures range { CyclesAreInRange }
    ensures calls { StepsTakeFewCycles }
{}

/// A step stops as Illegal exactly where the byte at the program counter has no row, as Break exactly at BRK, and as
/// Decimal exactly at ADC and SBC with the decimal flag set. So every other row has an effect.
pub fn each_stop_has_its_cause()
    ensures { StopsHaveCauses }
{}

/// ADC and SBC leave the byte and the flags that the manual says, as numbers from 0 to 255 and from -128 to 127.
pub fn sums_are_of_numbers()
    ensures sums { SumsAreOfNumbers }
    ensures differences { DifferencesAreOfNumbers }
{}

/// Machines stay machines: registers stay bytes, places addresses, and memory keeps its size.
pub fn machines_stay_machines()
    ensures steps { StepsKeepMachines }
    ensures calls { CallsKeepMachines }
{}

/// Steps that are worked by hand from the manual, at its corners.
pub fn worked_steps()
    ensures loads_and_stores { LoadsAndStores }
    ensures jumps_and_returns { JumpsAndReturns }
    ensures shifts_and_counts { ShiftsAndCounts }
    ensures transfers_and_flags { TransfersAndFlags }
    ensures stack { Stack }
    ensures branches { Branches }
    ensures sums { Sums }
    ensures differences { Differences }
    ensures stops { Stops }
{}

/// Each instruction that has an operand in memory, worked by hand in each of its modes.
pub fn worked_modes()
    ensures loads { LoadsInModes }
    ensures stores { StoresInModes }
    ensures sums { SumsInModes }
    ensures compares { ComparesInModes }
    ensures logic { LogicInModes }
    ensures shifts { ShiftsInModes }
    ensures counts { CountsInModes }
{}

/// Clock cycles that are worked by hand from the manual: of instructions that cross a page and don't, of branches, stops
/// and runs.
pub fn worked_cycles()
    ensures reads { ReadsCross }
    ensures each_read { EachReadCrosses }
    ensures others { OthersDoNotCross }
    ensures branches { BranchesCross }
    ensures each_branch { EachBranchTakes }
    ensures rows { OthersTake }
    ensures stops { StopsTakeNone }
    ensures runs { RunsTake }
{}

/// The machine's constants, at their edges.
pub fn worked_constants()
    ensures memory { MemoryIsFull }
    ensures callers { CallersPush }
    ensures sid { SidStandsThere }
    ensures log { LogsHaveRoom }
{}
