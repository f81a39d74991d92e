//! Facts about the definitions, each the contract of a function that does nothing.

ghost use Rattle.cycle_bound.specs.Bounds.{BlocksKeepBounds, LoweredBlocksKeepBounds, TreesKeepBounds};
ghost use Rattle.cycle_bound.specs.EntranceRules.{CallsKeepBounds, EntrancesKeepBounds};
ghost use Rattle.cycle_bound.specs.Least.{LeastAreLeast};
ghost use Rattle.cycle_bound.specs.Spans.{LeastFit};
ghost use Rattle.cycle_bound.specs.WorkedRules.{NumbersAreAsWorked};

/// Numbers that the rules admit bound what is counted of a block's lines, wherever they stand and from any desk; and the
/// clock cycles of their steps, where the block comes to its end.
pub fn bounds_are_kept()
    ensures trees { TreesKeepBounds }
    ensures blocks { BlocksKeepBounds }
    ensures lowered { LoweredBlocksKeepBounds }
{}

/// Numbers that the rules admit for an entrance and its blocks bound what is counted of a call, and the clock cycles of each
/// call that returns.
pub fn entrances_keep_bounds()
    ensures entrances { EntrancesKeepBounds }
    ensures calls { CallsKeepBounds }
{}

/// Each entrance has least numbers: they are admitted, and all others that are admitted reach them.
pub fn least_are_least()
    ensures { LeastAreLeast }
{}

/// The least numbers have room in 64 bits where 8 cycles a line have, and as many more for each turn of a loop.
pub fn least_numbers_fit()
    ensures { LeastFit }
{}

/// Numbers of small blocks, worked by hand: loops, ways out of them, branches and conditions, and numbers that aren't
/// admitted.
#[tactic(auto, using(crate::proofs::WorkedRules::numbers_are_as_worked))]
pub fn worked_numbers()
    ensures { NumbersAreAsWorked }
{}
