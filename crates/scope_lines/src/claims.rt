//! Facts about the definitions, each the contract of a function that does nothing.

ghost use Rattle.scope_lines.specs.Cycles.{CyclesAreIsolated, LoweredBlocksTake};
ghost use Rattle.scope_lines.specs.Homes.{LoweredLinesAreAtHome, LoweredLinesAreNotRefused};
ghost use Rattle.scope_lines.specs.Isolation.{TreesAreIsolated, LoweredBlocksAreIsolated};
ghost use Rattle.scope_lines.specs.Lines.{LinesTakeSize};
ghost use Rattle.scope_lines.specs.Lowered.{LoweredBlocksDo};
ghost use Rattle.scope_lines.specs.Sizes.{SizesAreBounded};
ghost use Rattle.scope_lines.specs.Weights.{CostsAreBounded};
ghost use Rattle.scope_lines.specs.WorkedShapes.{ShapesAreWorked};
ghost use Rattle.scope_lines.specs.WorkedSites.{SoughtIsLowered, SummedIsLowered, OthersAreNotIsolated};

/// The lines of a block do what it means where it comes to its end, from any state in whose memory they stand, in any
/// listing that assembles around them.
pub fn lowered_blocks_do()
    ensures { LoweredBlocksDo }
{}

/// They take as many clock cycles as the block's tree says of where it stands and of what is there. These are the same
/// from any two states that have the same in what the tree reads.
pub fn lowered_blocks_take_cycles()
    ensures blocks { LoweredBlocksTake }
    ensures isolated { CyclesAreIsolated }
{}

/// A tree that reads the registers that are known alone does the same whatever was in the others and in the places that
/// it may not read, where neither run is stuck; so does a block, where both come to their end.
pub fn lowered_blocks_are_isolated()
    ensures trees { TreesAreIsolated }
    ensures blocks { LoweredBlocksAreIsolated }
{}

/// The lines of a block take as many bytes as its shape says, at most so many whichever conditions hold, and run at
/// most as many instructions as it weighs.
pub fn lines_are_measured()
    ensures size { LinesTakeSize }
    ensures most { SizesAreBounded }
    ensures weight { CostsAreBounded }
{}

/// The lines of a block are at home in any listing that always names the labels that they use. Where it names no label
/// twice and fits at its origin, `assemble` finds nothing wrong with any of them, with any set of parts.
pub fn lowered_lines_are_not_refused()
    ensures at_home { LoweredLinesAreAtHome }
    ensures not_refused { LoweredLinesAreNotRefused }
{}

/// Two blocks at `$1000`, worked by hand: their bytes, a site that is well placed, states that enter it, and where
/// these come to. So what the theorems on lowered blocks ask is met there.
pub fn worked_sites()
    ensures sought { SoughtIsLowered }
    ensures summed { SummedIsLowered }
    ensures others { OthersAreNotIsolated }
{}

/// Small trees, worked by hand: which have lines and which don't, how much they weigh, and what is known in them.
#[tactic(auto, using(crate::proofs::WorkedShapes::shapes_are_worked))]
pub fn worked_shapes()
    ensures { ShapesAreWorked }
{}
