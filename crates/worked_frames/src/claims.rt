//! What small songs leave in the SID's registers, each the contract of a function that does nothing.

ghost use Rattle.worked_frames.specs.WorkedCorners.{WorkedCornersHold};
ghost use Rattle.worked_frames.specs.WorkedEdges.{WorkedEdgesHold};
ghost use Rattle.worked_frames.specs.WorkedTunes.{WorkedTunesHold};
ghost use Rattle.worked_frames.specs.WorkedSubtunes.{WorkedSubtunesHold};
ghost use Rattle.worked_frames.specs.WorkedSlides.{WorkedSlidesHold};
ghost use Rattle.worked_frames.specs.WorkedWithoutEffects.{WorkedWithoutEffectsHold};
ghost use Rattle.worked_frames.specs.WorkedWithoutPulse.{WorkedWithoutPulseHold};
ghost use Rattle.worked_frames.specs.WorkedLongPulses.{WorkedLongPulsesHold};
ghost use Rattle.worked_frames.specs.WorkedWithoutBoth.{WorkedWithoutBothHold};
ghost use Rattle.worked_frames.specs.WorkedBareVoices.{WorkedBareVoicesHold};
ghost use Rattle.worked_frames.specs.WorkedPeriods.{WorkedPeriodsHold};

/// Each command in rows and in the wave table, at the ends of their ranges.
#[tactic(auto, using(crate::proofs::WorkedCorners::worked_corners_lem))]
pub fn worked_corners()
    ensures { WorkedCornersHold }
{}

/// Programs, tempos and delays at the edges of their ranges, with keyoff, keyon and empty channels.
#[tactic(auto, using(crate::proofs::WorkedEdges::worked_edges_lem))]
pub fn worked_edges()
    ensures { WorkedEdgesHold }
{}

/// Small tunes, and a slide that comes to its target exactly.
#[tactic(auto, using(crate::proofs::WorkedTunes::worked_tunes_lem))]
pub fn worked_tunes()
    ensures { WorkedTunesHold }
{}

/// A vibrato whose period is one less than the longest, 180 calls.
#[tactic(auto, using(crate::proofs::WorkedPeriods::worked_periods_lem))]
pub fn worked_periods()
    ensures { WorkedPeriodsHold }
{}

/// Subtunes of songs as musicians keep them, with several instruments and all tables.
#[tactic(auto, using(crate::proofs::WorkedSubtunes::worked_subtunes_lem))]
pub fn worked_subtunes()
    ensures { WorkedSubtunesHold }
{}

/// Slides by the half tone at the last note, also at B-7, and the period of a vibrato.
#[tactic(auto, using(crate::proofs::WorkedSlides::worked_slides_lem))]
pub fn worked_slides()
    ensures { WorkedSlidesHold }
{}

/// Tunes and subtunes whole at speed 1, and without effects at speeds 2 to 4.
#[tactic(auto, using(crate::proofs::WorkedWithoutEffects::worked_without_effects_lem))]
pub fn worked_without_effects()
    ensures { WorkedWithoutEffectsHold }
{}

/// Tunes whole at speed 1, and without the pulse step at each speed.
#[tactic(auto, using(crate::proofs::WorkedWithoutPulse::worked_without_pulse_lem))]
pub fn worked_without_pulse()
    ensures { WorkedWithoutPulseHold }
{}

/// Tunes whole at speed 1, and without the pulse step at speeds 2 to 4; and a vibrato with the longest period, 180
/// calls.
#[tactic(auto, using(crate::proofs::WorkedLongPulses::worked_long_pulses_lem))]
pub fn worked_long_pulses()
    ensures { WorkedLongPulsesHold }
{}

/// Tunes whole at speed 1, and without effects and the pulse step at speeds 1, 3 and 4.
#[tactic(auto, using(crate::proofs::WorkedWithoutBoth::worked_without_both_lem))]
pub fn worked_without_both()
    ensures { WorkedWithoutBothHold }
{}

/// Subtunes whole at speed 1, and without effects and the pulse step at speeds 1 and 2.
#[tactic(auto, using(crate::proofs::WorkedBareVoices::worked_bare_voices_lem))]
pub fn worked_bare_voices()
    ensures { WorkedBareVoicesHold }
{}
