//! Facts about the definitions, each the contract of a function that does nothing.

ghost use Rattle.edit_script.specs.ScriptLaws.{ConstantIs, OneScriptOrOneBadLine};
ghost use Rattle.edit_script.specs.EditLaws.{EditsInOneWay, LeavesWhatItUndoes};
ghost use Rattle.edit_script.specs.WorkedScripts.{RowIsRead, EditsAreRead, NamesAreRead, WordsAreRead};
ghost use Rattle.edit_script.specs.WorkedScripts.{OneBlankIsWanted, DigitsAreCounted, FormsAreKept, BytesAreKept};
ghost use Rattle.edit_script.specs.WorkedScripts.{LinesAreCounted, NothingIsAScript, ReturnsAreKept, FirstIsNamed};
ghost use Rattle.edit_script.specs.WorkedRuns.{RowsComeAndGo, NothingIsTold, ReasonsAreTold};

/// Each text is a script of exactly one list of commands, or has exactly one first bad line and is no script.
pub fn one_script_or_one_bad_line()
    ensures { OneScriptOrOneBadLine }
{}

/// A text makes one song of a song, or fails at one line for one of six causes: one of both holds, and never both.
pub fn a_text_edits_in_one_way()
    ensures { EditsInOneWay }
{}

/// A text after which no edit stands makes of a song itself.
pub fn a_text_leaves_what_it_undoes()
    ensures { LeavesWhatItUndoes }
{}

/// The bytes that a script may have.
pub fn worked_constants()
    ensures { ConstantIs }
{}

/// Lines of each kind, and lines that may not stand in a script.
pub fn worked_lines()
    ensures row { RowIsRead }
    ensures edits { EditsAreRead }
    ensures names { NamesAreRead }
    ensures words { WordsAreRead }
    ensures blanks { OneBlankIsWanted }
    ensures digits { DigitsAreCounted }
    ensures forms { FormsAreKept }
    ensures bytes { BytesAreKept }
{}

/// Scripts, and texts with a bad line.
pub fn worked_scripts()
    ensures counted { LinesAreCounted }
    ensures nothing { NothingIsAScript }
    ensures returns { ReturnsAreKept }
    ensures first { FirstIsNamed }
{}

/// What texts make of a song without anything in it.
pub fn worked_runs()
    ensures rows { RowsComeAndGo }
    ensures nothing { NothingIsTold }
    ensures reasons { ReasonsAreTold }
{}
