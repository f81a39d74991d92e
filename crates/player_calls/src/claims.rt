//! Facts about players, each the contract of a function that does nothing.

ghost use Rattle.player_calls.specs.CallLaws.{PlayersPlay, PlayersAreIsolated, PlayersKeepBounds, PlayersHoldTheStart};
ghost use Rattle.player_calls.specs.WorkedWide.{SparesAreWorked, LayoutsAreWorked};

/// Any calls of a player in any order, each from any machine that has the image's bytes as the call before left them,
/// return within 60,000 instructions and write in their own places alone; from the first init on they leave the
/// registers of the song's frames.
pub fn players_play()
    ensures { PlayersPlay }
{}

/// From the first init on a call depends on the image's bytes alone, and init on its number.
pub fn players_are_isolated()
    ensures { PlayersAreIsolated }
{}

/// No call takes more clock cycles than the first of the numbers that the rules admit for its entrance, and 11 for what
/// stands around its blocks, after any calls and whatever the rest of memory holds.
pub fn players_keep_bounds()
    ensures { PlayersKeepBounds }
{}

/// A memory with the image's bytes as it is built holds the start of the first subtune, where each variable that has no
/// byte in the image has a spare one, which is 0: from `$0200` on, or from `$0300` on. These are thought of, since no call
/// reads or writes them.
pub fn players_hold_the_start()
    ensures { PlayersHoldTheStart }
{}

/// Which places are spare, and where labels stand and blocks may read and write in layouts with spare bytes, worked by
/// hand.
pub fn worked_layouts()
    ensures spares { SparesAreWorked }
    ensures layouts { LayoutsAreWorked }
{}
