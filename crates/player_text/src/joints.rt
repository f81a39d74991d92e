//! The scopes of a voice's block that are left from within blocks of their own, by their names.
//!
//! X is 7 times the voice's number at each of them, and the carry, A and Y are free where nothing is said of them.

/// The voice's step is done; its registers follow.
pub const SOUNDS: u8 = 128;
/// No note has started, and the row's command is done where one was due; the wave step follows.
pub const TICKED: u8 = 129;
/// No note waits, or it has been taken; Y is the instrument.
pub const TAKEN: u8 = 130;
/// The row's command is done.
pub const DONE: u8 = 131;
/// The effect is done, or there is none; a command that is lent comes back.
pub const EFFECTED: u8 = 132;
/// A number sets the frequency: A is it, below 128.
pub const PITCHED: u8 = 133;
/// An effect runs: A is its command, 1 to 4, and its parameter is the voice's.
pub const RUNNING: u8 = 134;
/// The row of the wave program is a command: A is its left side, `$F0` to `$FE`, Y the row; the program has gone on.
pub const COMMANDED: u8 = 135;
/// The command of the row of the wave program does nothing more.
pub const NOTHING: u8 = 136;
/// A slide has reached the note.
pub const FOUND: u8 = 137;
/// The frequency goes down by the low byte of the slide that stands in the lists at Y; the carry is on.
pub const FALLS: u8 = 138;
/// The frequency goes down by the slide that stands in the lists at Y; the carry is on.
pub const DOWN: u8 = 139;
/// The frequency goes up by the low byte of the slide that stands in the lists at Y; the carry is off.
pub const RISES: u8 = 140;
/// The frequency goes up by the slide that stands in the lists at Y; the carry is off.
pub const UP: u8 = 141;
/// The row is fetched where one was due; the pulse step follows.
pub const PULSED: u8 = 142;
/// The row is fetched: Y is its entry's offset, which isn't 0, the tick is the gateoff timer, and no rests are left.
pub const FETCHES: u8 = 143;
/// The pattern's first row is next at tick 0: A is 0, and Y is 1.
pub const FIRST: u8 = 144;
/// The pattern's first row is next: the offset is 1, and so is Y.
pub const LATE: u8 = 145;
/// The pattern is through, so the orderlist is walked for the next one.
pub const WALKS: u8 = 146;
/// The pattern is found.
pub const BEGINS: u8 = 147;
