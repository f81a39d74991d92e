//! What `help` is asked for: the whole list of forms, or one form.

ghost use Rattle.std.specs.Prelude.{◌≡◌, map, Some, IfOk, OnErr};
ghost use Rattle.command_line.specs.declared.topics.Topic.{Topic as Asked};
ghost use Rattle.command_line.specs.Topics.{form_word, help_lines, version_lines};

use crate::help::{files, others, songs};
use crate::words::WordsFault;

/// What `help` tells of.
#[derive(Clone, Copy, Debug, PartialEq, Eq)]
pub enum Topic {
    /// All forms, a line and an example for each.
    All,
    /// `check`.
    Check,
    /// `parts`.
    Parts,
    /// `bound`.
    Bound,
    /// `bound-check`.
    BoundCheck,
    /// `trace`.
    Trace,
    /// `pack`.
    Pack,
    /// `run`.
    Run,
    /// `measure`.
    Measure,
    /// `chart`.
    Chart,
    /// `show`.
    Show,
    /// `edit`.
    Edit,
    /// `copy`.
    Copy,
    /// `join`.
    Join,
    /// `disasm`.
    Disasm,
    /// `asm`.
    Asm,
    /// `selftest`.
    Selftest,
    /// `help`.
    Help,
    /// `version`.
    Version,
}

/// The form that a word is the first word of.
///
/// # Errors
///
/// No form begins with the word.
pub fn form_named(word: &str) -> Result<Topic, WordsFault>
    ensures named { IfOk result (λ topic. form_word topic ≡ Some word.now) }
    ensures none { OnErr result ((topic : Asked) → ¬ (form_word topic ≡ Some word.now)) }
{
    match word {
        "check" => Ok(Topic::Check),
        "parts" => Ok(Topic::Parts),
        "bound" => Ok(Topic::Bound),
        "bound-check" => Ok(Topic::BoundCheck),
        "trace" => Ok(Topic::Trace),
        "pack" => Ok(Topic::Pack),
        "run" => Ok(Topic::Run),
        "measure" => Ok(Topic::Measure),
        "chart" => Ok(Topic::Chart),
        "show" => Ok(Topic::Show),
        "edit" => Ok(Topic::Edit),
        "copy" => Ok(Topic::Copy),
        "join" => Ok(Topic::Join),
        "disasm" => Ok(Topic::Disasm),
        "asm" => Ok(Topic::Asm),
        "selftest" => Ok(Topic::Selftest),
        "help" => Ok(Topic::Help),
        "version" => Ok(Topic::Version),
        _ => Err(WordsFault),
    }
}

impl Topic {
    /// What `help` prints of it, line by line, each with its line feed.
    pub fn lines(self) -> &'static [&'static str]
        ensures { map (λ line. line.now) result.now ≡ help_lines self }
    {
        match self {
            Topic::All => others::ALL,
            Topic::Check => songs::CHECK,
            Topic::Parts => songs::PARTS,
            Topic::Bound => songs::BOUND,
            Topic::BoundCheck => songs::BOUND_CHECK,
            Topic::Trace => songs::TRACE,
            Topic::Pack => songs::PACK,
            Topic::Run => files::RUN,
            Topic::Measure => files::MEASURE,
            Topic::Chart => files::CHART,
            Topic::Show => songs::SHOW,
            Topic::Edit => songs::EDIT,
            Topic::Copy => songs::COPY,
            Topic::Join => songs::JOIN,
            Topic::Disasm => files::DISASM,
            Topic::Asm => files::ASM,
            Topic::Selftest => others::SELFTEST,
            Topic::Help => others::HELP,
            Topic::Version => others::VERSION,
        }
    }
}

/// What `version` prints, line by line, each with its line feed.
pub fn version_lines() -> &'static [&'static str]
    ensures { map (λ line. line.now) result.now ≡ version_lines }
{
    others::VERSION_LINES
}
