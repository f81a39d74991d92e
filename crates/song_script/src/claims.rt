//! Facts about the definitions, each the contract of a function that does nothing.

ghost use Rattle.song_script.specs.ScriptLaws.{EditsMakeTheSong, ScriptsMakeTheSong};
ghost use Rattle.song_script.specs.WorkedScripts.{NothingIsShown, SmallSongIsShown, RestsAreLeftOut, NotesAreNamed};
ghost use Rattle.song_script.specs.WorkedScripts.{LengthsAreTold, ZeroRowsAreLeftOut, FieldsAreNumbered};
ghost use Rattle.song_script.specs.WorkedScripts.{OrdersAreCounted, TextsAreReadable};

/// The edits of a song's script make exactly this song of the empty one.
pub fn edits_make_the_song()
    ensures { EditsMakeTheSong }
{}

/// A song's script is a script all of whose commands can be done on the empty song, and makes exactly this song of it.
pub fn scripts_make_the_song()
    ensures { ScriptsMakeTheSong }
{}

/// The text of the empty song, and of one with something of each part.
pub fn worked_songs()
    ensures nothing { NothingIsShown }
    ensures small { SmallSongIsShown }
{}

/// Rows, notes and lengths of patterns.
pub fn worked_patterns()
    ensures rests { RestsAreLeftOut }
    ensures notes { NotesAreNamed }
    ensures lengths { LengthsAreTold }
{}

/// Rows of tables, instruments, orderlists and texts.
pub fn worked_parts()
    ensures rows { ZeroRowsAreLeftOut }
    ensures fields { FieldsAreNumbered }
    ensures orders { OrdersAreCounted }
    ensures texts { TextsAreReadable }
{}
