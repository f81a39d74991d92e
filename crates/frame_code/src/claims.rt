//! Facts about the code, each the contract of a function that does nothing.

ghost use Rattle.frame_code.specs.FrameBlock.{FramesPlay};
ghost use Rattle.frame_code.specs.InitBlock.{BeginningsStart};

/// In any memory that holds a state of a packed song, for which the steps of a frame are ready, the call of the frame
/// comes to its end with the state behind the frame in memory and its 25 registers written; it leaves all else but the
/// stack. A voice that isn't run stays in memory as it starts.
pub fn frames_play()
    ensures { FramesPlay }
{}

/// In any memory that has a packed song's lists, and 0 in each variable that isn't cleared, the call of a beginning with
/// the number of a subtune comes to its end with the start state in memory and the 25 registers 0; it sets the timer
/// where that is kept, and leaves all else.
pub fn beginnings_start()
    ensures { BeginningsStart }
{}
