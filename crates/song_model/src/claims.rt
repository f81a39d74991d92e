//! Facts about the definitions of this crate, each the contract of a function that does nothing.

ghost use Rattle.std.specs.Prelude.{◌≡◌};
ghost use Rattle.song_model.specs.Canonical.{canonical};
ghost use Rattle.song_model.specs.Silence.{silence, silence_bytes};
ghost use Rattle.song_model.specs.CanonicalLaws.{SpellingsDiffer};
ghost use Rattle.song_model.specs.Limits.{KeepsLimits};
ghost use Rattle.song_model.specs.Silent.{IsSilent};
ghost use Rattle.song_model.specs.WalkLaws.{PlaysAreEntries, PlaysArePatterns, TransposesAreInRange, OneCycleIsEnough};
ghost use Rattle.song_model.specs.WorkedWalks.{TransposesAreKept, RepeatsAreUsedUp, RepeatsReachTheRestart};
ghost use Rattle.song_model.specs.WorkedPlaces.{RepeatsStay, TransposesStay, RestartsInTheMiddle, RepeatsArePending};

/// How a silent song is spelled.
#[tactic(auto, unfolding(crate::specs::Canonical::canonical))]
pub fn silence_spelling()
    ensures { canonical silence ≡ silence_bytes }
{}

/// No two songs within the limits are spelled alike.
pub fn spellings_differ()
    ensures { SpellingsDiffer }
{}

/// What orderlists with transposes, with repeats, and with a restart after a repeat play.
#[tactic(auto, unfolding(crate::specs::Walk::prefix_of, crate::specs::Walk::cycle_of, crate::specs::Walk::played))]
pub fn worked_walks()
    ensures transposes { TransposesAreKept }
    ensures repeats { RepeatsAreUsedUp }
    ensures restart { RepeatsReachTheRestart }
{}

/// Where walks with a repeat, with a transpose, with a restart in the middle, and with a repeat that
/// is pending at the end stand.
#[tactic(auto, unfolding(crate::specs::Walk::prefix_of, crate::specs::Walk::cycle_of, crate::specs::Places::prefix_places, crate::specs::Places::cycle_places, crate::specs::Places::place_after, crate::specs::Places::place_of))]
pub fn worked_places()
    ensures repeat { RepeatsStay }
    ensures transpose { TransposesStay }
    ensures middle { RestartsInTheMiddle }
    ensures pending { RepeatsArePending }
{}

/// Where a pattern stands from the restart position on, each play names an entry of its orderlist.
pub fn plays_are_entries()
    ensures { PlaysAreEntries }
{}

/// Where the walk never ends, each play names the number of a pattern, and the orderlist has it.
pub fn plays_are_patterns()
    ensures { PlaysArePatterns }
{}

/// Each play's transpose is from -16 to 14 half tones.
pub fn transposes_are_in_range()
    ensures { TransposesAreInRange }
{}

/// A walk's second round is like its first, so that one cycle says what comes for ever.
pub fn one_cycle_is_enough()
    ensures { OneCycleIsEnough }
{}

/// The silent song keeps the limits of the format, and is silent.
pub fn silence_is_silent()
    ensures limits { KeepsLimits silence }
    ensures silent { IsSilent silence }
{}
