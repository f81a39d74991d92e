//! Facts about the definitions, each the contract of a function that does nothing.

ghost use Rattle.command_line.specs.Laws.{WordsNameOneJob, LinesHaveRoom};

/// The words of a line name one job at most.
pub fn words_name_one_job()
    ensures { WordsNameOneJob }
{}

/// 128 bytes hold each line beside the names in it, so a line with its room takes no memory.
pub fn lines_have_room()
    ensures { LinesHaveRoom }
{}
