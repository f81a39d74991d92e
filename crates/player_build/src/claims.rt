//! Facts about the definitions, each the contract of a function that does nothing.

ghost use Rattle.player_build.specs.WorkedRoom.{NotesHaveRoom};
ghost use Rattle.player_build.specs.WorkedSpans.{SpansAreWorked, TwoSpeedsAreWorked};

/// At which addresses the image of a small packed song is too long.
pub fn worked_room()
    ensures { NotesHaveRoom }
{}

/// The parts of the bytes in two spans, their order, how many bytes of a part they have, and which bytes spans name, with
/// their parts; and which bytes of an image with two speeds are its lists.
pub fn worked_spans()
    ensures spans { SpansAreWorked }
    ensures lists { TwoSpeedsAreWorked }
{}
