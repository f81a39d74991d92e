//! Facts about the definitions, each the contract of a function that does nothing.

ghost use Rattle.song_gen.specs.GeneratedLaws.{GeneratedSongsKeepLimits, GeneratedSongsArePlayable};
ghost use Rattle.song_gen.specs.GeneratedLaws.{GeneratedSongsHaveEightSubtunes, GeneratedPatternsAreShort};
ghost use Rattle.song_gen.specs.GeneratedLaws.{GeneratedSongsAreSmall};
ghost use Rattle.song_gen.specs.WorkedSongs.{EachHasTables, FirstDrawsAre, LastDrawsAre};

/// Each generated song keeps the limits of the format, can be played, has eight playable subtunes, and is small enough to
/// be packed.
pub fn generated_songs_can_be_packed()
    ensures limits { GeneratedSongsKeepLimits }
    ensures playable { GeneratedSongsArePlayable }
    ensures subtunes { GeneratedSongsHaveEightSubtunes }
    ensures short { GeneratedPatternsAreShort }
    ensures small { GeneratedSongsAreSmall }
{}

/// The tables of each song, and what isn't drawn of its instruments; the first draws of two songs, and the last draws of
/// one.
pub fn worked_songs()
    ensures tables { EachHasTables }
    ensures first { FirstDrawsAre }
    ensures last { LastDrawsAre }
{}
