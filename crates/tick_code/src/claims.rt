//! Facts about the code, each the contract of a function that does nothing.

ghost use Rattle.tick_code.specs.TickBlock.{TickBlockHasLines, TickBlockSteps};
ghost use Rattle.tick_code.specs.WorkedTick.{TickIsWorked};

/// In any memory that holds a voice that is playing, the code of the tick step does the step. It comes to its end where
/// no note has started, and leaves the voice's step where one has, both times with the voice's bytes and those that the
/// voices share as the rule leaves its state, and leaves all else.
pub fn tick_block_steps()
    ensures { TickBlockSteps }
{}

/// In a scope that it leaves where a note has started, the block has lines, whichever conditions hold. They take 82 to
/// 381 bytes.
pub fn tick_block_has_lines()
    ensures { TickBlockHasLines }
{}

/// A row as it is worked by hand: a note starts, and a command sets the voice's own tempo. Where what the clause asks
/// for ends, and what doing the row isn't.
pub fn worked_tick()
    ensures { TickIsWorked }
{}
