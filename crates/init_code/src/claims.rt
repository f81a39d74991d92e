//! Facts about the code, each the contract of a function that does nothing.

ghost use Rattle.init_code.specs.InitBlock.{InitBlockStarts};
ghost use Rattle.init_code.specs.WorkedInit.{RunsAreWorked, SiteIsWorked, StartsAreWorked};

/// In any memory with 0 in each variable that it would clear and doesn't, the code that begins a subtune comes to its end
/// with the variables that hold something as the subtune begins, each voice with its orderlist, which it has already
/// where there is one subtune alone, and with the registers 0; it sets the timer where it is kept, and leaves all else
/// but its pointer.
pub fn init_block_starts()
    ensures { InitBlockStarts }
{}

/// The code run by hand in a memory that is full of other bytes: the first subtune and the second of two, with the timer
/// and without it, and where no other condition holds; one alone, where no condition holds and where all others do; and
/// where it clears eighty variables and the others are 0; with what it leaves, and in how many instructions. What the
/// law on it asks is met there, and refuses others, as it refuses other bytes behind the code.
pub fn worked_subtunes()
    ensures runs { RunsAreWorked }
    ensures site { SiteIsWorked }
    ensures starts { StartsAreWorked }
{}
