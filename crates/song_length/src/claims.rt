//! Facts about the definitions, each the contract of a function that does nothing.

ghost use Rattle.song_length.specs.Repeats.{RepeatingSongsGoOn};
ghost use Rattle.song_length.specs.WorkedSongs.{DearestAreWorked, PlaysAreWorked, RepeatsAreWorked, ToldAreWorked};
ghost use Rattle.song_length.specs.Laws.{FewAreTold, MeasuredSongsGoOn, PlaysCostLittle, SongsAreToldOnce};
ghost use Rattle.song_length.specs.Laws.{SongsCostOnce, SongsStopOnce};

/// A song whose state comes again goes on for ever as it went from there on: each play returns, and tells what the play
/// before it by the song's length tells.
pub fn repeating_songs_go_on()
    ensures { RepeatingSongsGoOn }
{}

/// So does one that is told to: and none of its plays, ever, takes more clock cycles than the one that is told as the
/// dearest. What is told takes at most 1,400,000, and so does each play.
pub fn measured_songs_go_on()
    ensures going { MeasuredSongsGoOn }
    ensures few { FewAreTold }
    ensures plays { PlaysCostLittle }
{}

/// Of a song one thing alone can be told; and none where one of the calls that are looked at doesn't return: then one call
/// and one reason. What its plays cost is one list.
pub fn songs_are_told_once()
    ensures told { SongsAreToldOnce }
    ensures stops { SongsStopOnce }
    ensures costs { SongsCostOnce }
{}

/// The plays of two small machines are worked by hand: what they are told to be, and what is refused of them.
pub fn worked_songs()
    ensures plays { PlaysAreWorked }
    ensures repeats { RepeatsAreWorked }
    ensures dearest { DearestAreWorked }
    ensures told { ToldAreWorked }
{}
