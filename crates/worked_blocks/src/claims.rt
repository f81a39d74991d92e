//! What the definitions take and refuse, each the contract of a function that does nothing.

ghost use Rattle.play_model.specs.LookUps.{LookUps};
ghost use Rattle.worked_blocks.specs.WorkedFetches.{FetchesAreWorked};
ghost use Rattle.worked_blocks.specs.WorkedEdges.{EdgesAreWorked};
ghost use Rattle.worked_blocks.specs.WorkedGrounds.{GroundsAreWorked, LeavingIsWorked, OthersAreDenied};
ghost use Rattle.worked_blocks.specs.WorkedFrames.{EntrancesAreExact};
ghost use Rattle.worked_blocks.specs.WorkedNote.{NotesAreWorked};

/// The code run by hand: the orderlist walked past a transpose and a repeat, a play that is repeated, rests, a note,
/// what instruments hold before one, by their gateoff timers and by their numbers, a row that isn't due, and the pulse
/// step left out. What the law on it asks is met there; it refuses other memories, and what the code doesn't leave.
/// Orderlists and patterns that just stand in memory, and such as just don't.
pub fn worked_fetches()
    ensures runs { FetchesAreWorked }
    ensures grounds { (look : LookUps) → GroundsAreWorked look }
    ensures others { (look : LookUps) → OthersAreDenied look }
    ensures edges { (look : LookUps) → EdgesAreWorked look }
    ensures leaving { (look : LookUps) → LeavingIsWorked look }
{}

/// What the definitions of the two entrances take and refuse: entrances, places that may be read, states in memory, and
/// what a call of each has done.
pub fn entrances_are_exact()
    ensures { EntrancesAreExact }
{}

/// A packed song of one note in a layout and a memory worked by hand, which are what the laws of the two calls ask for;
/// another byte in a list is refused. The call of a beginning leaves the start state there.
pub fn notes_are_worked()
    ensures { NotesAreWorked }
{}
