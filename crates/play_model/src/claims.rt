//! Facts about the definitions of this crate, each the contract of a function that does nothing.

ghost use Rattle.play_model.specs.TraceLaws.{TracesHaveAllRegisters, SystemsPlayAlike};
ghost use Rattle.play_model.specs.RefusalLaws.{RefusedOrPlayable};
ghost use Rattle.play_model.specs.SilentLaws.{SilentSongsCanBePlayed};
ghost use Rattle.play_model.specs.RangeLaws.{RangesAreKept, FrameRangesAreKept, StartIsInRange, SongRangesAreKept};
ghost use Rattle.play_model.specs.RangeLaws.{TransposesWrap};
ghost use Rattle.play_model.specs.UseLaws.{PlayableSongsAreWhole, ReachedRowsAreBytes, ProgramsStayInTheirTables};
ghost use Rattle.play_model.specs.UseLaws.{ReachedRowsAreClosed, SongsAreRefusedForOneThing};
ghost use Rattle.play_model.specs.UseLaws.{RefusedSongsAreNotPlayable, UnusedPartsDoNotCount};
ghost use Rattle.play_model.specs.WorkedUses.{UsesAreAsWorked};
ghost use Rattle.play_model.specs.WorkedRefusals.{RefusalsAreAsWorked};
ghost use Rattle.play_model.specs.WorkedFrequencies.{FrequenciesAreAsWorked};
ghost use Rattle.play_model.specs.WorkedTimers.{TimersAreWorked};
ghost use Rattle.play_model.specs.WorkedFrames.{OneNoteSounds, LowNoteIsMute, VibratoWraps, SlideStops, FunkTempoWraps};
ghost use Rattle.play_model.specs.WorkedFrames.{LongFunkTempoIsCut, GateTimerBits, LongTimerIsNeverMet};
ghost use Rattle.play_model.specs.WorkedFrames.{WaveProgramWaits, VibratoChangesAlone, FilterFollows};
ghost use Rattle.play_model.specs.WorkedFrames.{OptionsAreAsWorked, FirstSkipsAreAsWorked};

/// Each call leaves 25 registers.
pub fn traces_have_all_registers()
    ensures { TracesHaveAllRegisters }
{}

/// No register depends on the system.
pub fn systems_play_alike()
    ensures { SystemsPlayAlike }
{}

/// Each rule keeps the ranges of what a voice keeps and what the voices share, over any look-ups
/// that find bytes.
#[tactic(auto, using(crate::proofs::RangesOfFrames::ranges_lem))]
pub fn rules_keep_ranges()
    ensures { RangesAreKept }
{}

/// So do the states within a frame, and the registers that a frame leaves are bytes.
#[tactic(auto, using(crate::proofs::RangesOfFrames::frame_ranges_lem))]
pub fn frames_keep_ranges()
    ensures { FrameRangesAreKept }
{}

/// Each start is within the ranges.
#[tactic(auto, using(crate::proofs::RangesOfFrames::start_lem))]
pub fn starts_are_in_range()
    ensures { StartIsInRange }
{}

/// A song within its limits has bytes under each number, and is played with them: each state is within
/// the ranges, and each trace is bytes.
pub fn songs_keep_ranges()
    ensures { SongRangesAreKept }
{}

/// A transposed note is the wrapping sum of two bytes.
#[tactic(auto, using(crate::proofs::RangesOfFrames::transposes_lem))]
pub fn transposes_wrap()
    ensures { TransposesWrap }
{}

/// A song that is refused for nothing can be played.
#[tactic(auto, using(crate::proofs::FirstRefusals::refused_or_playable_lem))]
pub fn songs_are_refused_or_playable()
    ensures { RefusedOrPlayable }
{}

/// Each silent song can be played.
#[tactic(auto, using(crate::proofs::SilentSongs::silent_songs_can_be_played_lem))]
pub fn silent_songs_can_be_played()
    ensures { SilentSongsCanBePlayed }
{}

/// What is reached from a reached row is reached, and so is what a pointer or a reached jump names; the rows
/// of the speed table are those that pointers name.
#[tactic(auto, using(crate::proofs::ReachedRows::closed_lem))]
pub fn reached_rows_are_closed()
    ensures { ReachedRowsAreClosed }
{}

/// What a playable song uses is stored, its orderlists go on for ever, and no pointer or jump names a jump.
pub fn playable_songs_are_whole()
    ensures { PlayableSongsAreWhole }
{}

/// A reached row of a playable song has a number of one byte.
#[tactic(auto, using(crate::proofs::PlayableSongs::reached_byte_lem))]
pub fn reached_rows_are_bytes()
    ensures { ReachedRowsAreBytes }
{}

/// From a row that isn't a jump a program of a playable song goes on to another such row, or stops.
#[tactic(auto, using(crate::proofs::PlayableSongs::stays_lem))]
pub fn programs_stay_in_their_tables()
    ensures { ProgramsStayInTheirTables }
{}

/// A song is refused for one thing at most.
#[tactic(auto, using(crate::proofs::OneRefusal::one_refusal))]
pub fn songs_are_refused_for_one_thing()
    ensures { SongsAreRefusedForOneThing }
{}

/// A song that is refused can't be played.
#[tactic(auto, using(crate::proofs::OneRefusal::refused_lem))]
pub fn refused_songs_are_not_playable()
    ensures { RefusedSongsAreNotPlayable }
{}

/// The used parts and the features of a playable song don't depend on what it doesn't use.
#[tactic(auto, using(crate::proofs::UnusedFeatures::unused_lem))]
pub fn unused_parts_do_not_count()
    ensures { UnusedPartsDoNotCount }
{}

/// What a small song uses: the rows that it comes to and what they name; and what stands in it unused.
#[tactic(auto, using(crate::proofs::WorkedUses::uses_are_as_worked_lem))]
pub fn worked_uses()
    ensures { UsesAreAsWorked }
{}

/// Why small songs can't be played: no subtune, the least of two places, and a program that runs off its table.
#[tactic(auto, using(crate::proofs::WorkedRefusals::refusals_are_as_worked_lem))]
pub fn worked_refusals()
    ensures { RefusalsAreAsWorked }
{}

/// Frequencies at the ends of the octaves and beyond the last note.
pub fn worked_frequencies()
    ensures { FrequenciesAreAsWorked }
{}

/// A note that is fetched, starts, sounds and is released.
pub fn one_note_sounds()
    ensures { OneNoteSounds }
{}

/// The lowest note with the lowest transpose.
pub fn low_note_is_mute()
    ensures { LowNoteIsMute }
{}

/// A vibrato at the highest frequency.
pub fn vibrato_wraps()
    ensures { VibratoWraps }
{}

/// A slide to a note, and a tie note.
pub fn slide_stops()
    ensures { SlideStops }
{}

/// A funk value of 0 frames.
pub fn funk_tempo_wraps()
    ensures { FunkTempoWraps }
{}

/// Funk values about the tick at which a row's length is loaded anew.
#[tactic(auto, using(crate::proofs::Computed::long_funk_tempo_is_cut_lem))]
pub fn long_funk_tempo_is_cut()
    ensures { LongFunkTempoIsCut }
{}

/// What the two high bits of the gateoff timer keep.
pub fn gate_timer_bits()
    ensures { GateTimerBits }
{}

/// A wave program that waits and is begun anew.
pub fn wave_program_waits()
    ensures { WaveProgramWaits }
{}

/// An instrument that a row changes without a note.
pub fn vibrato_changes_alone()
    ensures { VibratoChangesAlone }
{}

/// A filter program.
pub fn filter_follows()
    ensures { FilterFollows }
{}

/// What each option leaves out, and how long the rows last at speed 2.
#[tactic(auto, using(crate::proofs::Computed::options_are_as_worked_lem))]
pub fn options_are_as_worked()
    ensures { OptionsAreAsWorked }
{}

/// What leaving out the pulse step between two patterns changes in some of them.
#[tactic(auto, using(crate::proofs::Computed::first_skips_are_as_worked_lem))]
pub fn first_skips_are_as_worked()
    ensures { FirstSkipsAreAsWorked }
{}

/// A gateoff timer that is longer than a row.
pub fn long_timer_is_never_met()
    ensures { LongTimerIsNeverMet }
{}

/// The timer's values at each speed.
pub fn worked_timers()
    ensures { TimersAreWorked }
{}
