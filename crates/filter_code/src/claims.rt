//! Facts about the code, each the contract of a function that does nothing.

ghost use Rattle.filter_code.specs.FilterBlock.{FilterBlockSteps};
ghost use Rattle.filter_code.specs.WorkedFilters.{FiltersAreWorked, RowsAreWorked, RunsAreRefused};

/// In any memory that holds what the voices share, the code of the filter step does the step: it comes to its end with
/// their bytes as the rule leaves the state and the registers 21 to 24 as a frame writes them from that, and leaves all
/// else.
pub fn filter_block_steps()
    ensures { FilterBlockSteps }
{}

/// Frames worked by hand in a room at `$1000`, where all that the clause asks is met: two rows that belong together, a
/// slide and its last frame with a jump behind it, a cutoff alone, no program, and no filter. On which rows of a table
/// a program may be. And what the clause refuses: a run that changes one byte more than the step, that is stuck, or
/// that sets the decimal flag.
pub fn worked_filters()
    ensures frames { FiltersAreWorked }
    ensures rows { RowsAreWorked }
    ensures refused { RunsAreRefused }
{}
