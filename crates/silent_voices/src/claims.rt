//! Facts about the definitions, each the contract of a function that does nothing.

ghost use Rattle.silent_voices.specs.SilentLaws.{MuteVoicesAreSilent, SilentTurnsAreLeft};
ghost use Rattle.silent_voices.specs.SilentLaws.{SilentChannelsPlayNothing, SilentStatesStayMute};
ghost use Rattle.silent_voices.specs.WorkedSilent.{SilenceIsWorked};

/// The registers of a mute voice are 0.
#[tactic(auto, using(crate::proofs::Muting::mute_registers))]
pub fn mute_voices_are_silent()
    ensures { MuteVoicesAreSilent }
{}

/// A mute voice of a channel with nothing to play stays silent in its turn, where it loads no tempo of 0 or 1.
pub fn silent_turns_are_left()
    ensures { SilentTurnsAreLeft }
{}

/// The voice of such a channel is mute at each start, and each frame leaves it mute.
pub fn silent_channels_play_nothing()
    ensures { SilentChannelsPlayNothing }
{}

/// So it is mute after any number of frames.
pub fn silent_states_stay_mute()
    ensures { SilentStatesStayMute }
{}

/// Mute voices, silent channels and their turns in small songs; and others beside them, each of which isn't for one
/// thing alone.
#[tactic(auto, using(crate::proofs::WorkedSilent::silence_is_worked))]
pub fn worked_silence()
    ensures { SilenceIsWorked }
{}
