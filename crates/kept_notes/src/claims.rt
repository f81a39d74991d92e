//! Facts about the definitions, each the contract of a function that does nothing.

ghost use Rattle.kept_notes.specs.NoteLaws.{VoicesLookUpAsked, TimersAreUsed, NotesWithin};
ghost use Rattle.kept_notes.specs.NoteLaws.{PlayableSongsPlayTheirNotes, StatesKeepNotes};
ghost use Rattle.kept_notes.specs.WorkedVoices.{VoicesAreWorked};

/// What a voice that is safe and keeps the song's notes looks up within its step is a number that the song asks for.
#[tactic(auto, using(crate::proofs::Asked::voices_look_up_asked_lem))]
pub fn voices_look_up_asked()
    ensures { VoicesLookUpAsked }
{}

/// When a voice that is safe and keeps the song's notes comes to its fetch, its gateoff timer is that of an instrument
/// that the song uses.
#[tactic(auto, using(crate::proofs::Timers::timers_are_used_lem))]
pub fn timers_are_used()
    ensures { TimersAreUsed }
{}

/// Each rule of a frame keeps the song's notes, and so does each step of a frame.
pub fn notes_within()
    ensures { NotesWithin }
{}

/// Each start of a playable song keeps its notes, and each frame does.
pub fn playable_songs_play_their_notes()
    ensures { PlayableSongsPlayTheirNotes }
{}

/// The state after any number of frames keeps the song's notes.
pub fn states_keep_notes()
    ensures { StatesKeepNotes }
{}

/// Voices and states of small songs that keep their notes and timers, and what they look up; and others beside them,
/// each of which doesn't for one thing alone.
#[tactic(auto, using(crate::proofs::WorkedVoices::voices_are_worked))]
pub fn worked_voices()
    ensures { VoicesAreWorked }
{}
