//! Facts about the code, each the contract of a function that does nothing.

ghost use Rattle.packed_form.specs.declared.packed_songs.PackedSong.{PackedSong};
ghost use Rattle.frame_scenes.specs.FrameScenes.{FramesAreReady, PackedFramesAreReady};
ghost use Rattle.frame_scenes.specs.WorkedScenes.{NoneAreScenes, PatternLimitsAreWorked};

/// Where a packed song stands for a song, its lists stand in memory, and the lines are kept of what the frame after a
/// safe state uses and of the packed song's facts, and of no other facts, the filter and each voice have what their
/// steps read, and are ready for them. The lines for instruments that leave the gate or the envelope as it is are kept
/// for one that does alone.
///
/// So is each frame of a packed subtune from its start on, where the lines of all of the packed song's features and
/// facts are kept, and of no other facts.
pub fn frames_are_ready()
    ensures ready { FramesAreReady }
    ensures packed { PackedFramesAreReady }
{}

/// Packed patterns that are short enough, or too long; and what is no scene, for each of its parts alone: worked by
/// hand.
pub fn worked_scenes()
    ensures limits { (packed : PackedSong) → PatternLimitsAreWorked packed }
    ensures refused { NoneAreScenes }
{}
