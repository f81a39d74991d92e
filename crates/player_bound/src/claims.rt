//! Facts about the definitions, each the contract of a function that does nothing.

ghost use Rattle.player_bound.specs.BoundLaws.{CheckedBoundsAreKept, ImagesKeepBounds, SystemsAreBoundAlike};
ghost use Rattle.player_bound.specs.BoundLaws.{LeastBoundsAreLeast, OneAnswer, TurnsAreItsWalks};
ghost use Rattle.player_bound.specs.BoundLaws.{ProgramsAreLowered, ProgramsHaveNodes};

/// No call of an image of a packed song, after any calls and whatever the rest of memory holds, takes more clock cycles
/// than the first of the numbers that the rules admit for its entrance, and 11 for what stands around its blocks.
/// So it is with what is answered to numbers that are checked, and for the other system too.
pub fn images_keep_bounds()
    ensures admitted { ImagesKeepBounds }
    ensures checked { CheckedBoundsAreKept }
    ensures systems { SystemsAreBoundAlike }
{}

/// The program of a packed song is that of its images: its blocks are those of the two entrances of which an image's code is
/// made, and the same lines are kept. Each has 53 numbers of init, and 854 of play.
pub fn programs_are_lowered()
    ensures lowered { ProgramsAreLowered }
    ensures nodes { ProgramsHaveNodes }
{}

/// The least numbers of both entrances are answered by their first ones, and no numbers that are admitted have lesser ones.
pub fn least_bounds_are_least()
    ensures { LeastBoundsAreLeast }
{}

/// Numbers are answered in one way: by the bounds, where the rules admit them, or by their first fault.
pub fn numbers_have_one_answer()
    ensures { OneAnswer }
{}

/// A walk along an orderlist is counted with the turns of the song's longest one, of a song worked by hand.
pub fn worked_turns()
    ensures { TurnsAreItsWalks }
{}
