//! Facts about the definitions, each the contract of a function that does nothing.

ghost use Rattle.safe_states.specs.SafeLaws.{PlayableSongsPlaySafely, StatesAreSafe, NoUnusedCase, SafeWithin};
ghost use Rattle.safe_states.specs.WorkedCases.{CasesAreAsWorked};
ghost use Rattle.safe_states.specs.WorkedStates.{StatesAreWorked};

/// Each start of a playable song is safe, each frame keeps it so, and what a frame uses is a feature of the song.
pub fn playable_songs_play_safely()
    ensures { PlayableSongsPlaySafely }
{}

/// The state after any number of frames is safe.
#[tactic(auto, using(crate::proofs::Frames::states_are_safe_lem))]
pub fn states_are_safe()
    ensures { StatesAreSafe }
{}

/// A frame of a playable song uses no more than the song's features, with any options, after any number of frames.
#[tactic(auto, using(crate::proofs::Frames::no_unused_case_lem))]
pub fn no_unused_case()
    ensures { NoUnusedCase }
{}

/// Each rule of a frame keeps what it works on safe, and so does each step of a frame.
pub fn safe_within()
    ensures { SafeWithin }
{}

/// What frames of small songs use, each feature at least once, and what others that are close to them don't.
#[tactic(auto, using(crate::proofs::WorkedCases::cases_are_as_worked_lem))]
pub fn worked_cases()
    ensures { CasesAreAsWorked }
{}

/// Notes that sound and that wait, and frames that a row of the wave program has waited for, at the edges of what a
/// safe voice may have; and what it may not. A voice of a small song that is safe, and others that aren't, each for one
/// thing alone.
#[tactic(auto, using(crate::proofs::WorkedStates::states_are_worked))]
pub fn worked_states()
    ensures { StatesAreWorked }
{}
