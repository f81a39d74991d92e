//! The command line's words, and the job that they name.

ghost use Rattle.std.specs.Prelude.{◌≡◌, IfOk, OnErr};
ghost use Rattle.command_line.specs.Words.{texts, HasAllowedNumbers};
ghost use Rattle.command_line.specs.Forms.{IsNoForm, WordsOf, command_named};
ghost use Rattle.command_line.specs.Job.{job_of};

use crate::chip::Chip;
use crate::commands;
use crate::topics::Topic;
use play_model::Options;

/// The line of words that are of no form: the command, and a word for each form.
pub const USAGE: &str = concat!(
    "usage: goat check|trace|pack|run|edit|copy|selftest|disasm|asm|join|help|version|show|parts|bound|bound-check",
    "|measure|chart"
);

/// What the program is asked to do.
#[derive(Clone, Copy, Debug)]
pub enum Job<'a> {
    /// `pack IN OUT psid ADDRESS ZP`, or `raw` in place of `psid`, or with `SKIP SPEED` or `SKIP SPEED SYSTEM CHIP`
    /// behind it: pack the song in the file IN into the file OUT.
    Pack {
        input: &'a str,
        output: &'a str,
        /// Whether OUT is a PSID file; else it is a raw one.
        psid: bool,
        /// Where the image will stand: a multiple of 256 from `$0800` to `$CF00`.
        address: u16,
        /// The first of the player's two zero page bytes, `$02` to `$FE`.
        zero_page: u8,
        /// What is left out of a frame, the speed, and the system.
        options: Options,
        /// Which SID the song is made for.
        chip: Chip,
    },
    /// `copy IN OUT`: write the canonical spelling of the song in the file IN into the file OUT.
    Copy {
        input: &'a str,
        output: &'a str,
    },
    /// `edit IN SCRIPT OUT`: do the script on the song in the file IN, and write the canonical spelling of what it makes
    /// into the file OUT.
    Edit {
        input: &'a str,
        script: &'a str,
        output: &'a str,
    },
    /// `check IN`: tell what the song in the file IN uses, or why it can't be played.
    Check {
        input: &'a str,
    },
    /// `trace IN SUBTUNE FRAMES`, or with `SKIP SPEED` behind it: print the SID's registers after each call of the
    /// song in the file IN.
    Trace {
        input: &'a str,
        /// The subtune, counted from 1.
        subtune: u8,
        /// The number of frames, at most 100,000.
        frames: u32,
        /// What is left out of a frame, and the speed.
        options: Options,
    },
    /// `run IN SUBTUNE FRAMES`: run the PSID file IN, and print the SID's registers after each call.
    Run {
        input: &'a str,
        /// The subtune, counted from 1.
        subtune: u8,
        /// How often play is called, at most 100,000 times.
        frames: u32,
    },
    /// `selftest NUMBER`: make a song from a number, and pack, trace and run it.
    Selftest {
        number: u64,
    },
    /// `disasm IN OUT`: write a listing of the image in the PSID file IN into the file OUT.
    Disasm {
        input: &'a str,
        output: &'a str,
    },
    /// `asm IN OUT`: assemble the listing in the file IN, and write its bytes with their address into the file OUT.
    Asm {
        input: &'a str,
        output: &'a str,
    },
    /// `join IN SECOND OUT`: write the songs in the files IN and SECOND into the file OUT, as one song.
    Join {
        input: &'a str,
        second: &'a str,
        output: &'a str,
    },
    /// `help`, or with the first word of a form behind it: tell of all forms, or of that one.
    Help {
        topic: Topic,
    },
    /// `version`: tell the version, and what it was proved with.
    Version,
    /// `show IN OUT`: write the song in the file IN as a script into the file OUT.
    Show {
        input: &'a str,
        output: &'a str,
    },
    /// `bound IN OUT SKIP SPEED`: write into the file OUT numbers that say how many clock cycles a call of the packed song in
    /// the file IN takes at most.
    Bound {
        input: &'a str,
        output: &'a str,
        /// What is left out of a frame, and the speed.
        options: Options,
    },
    /// `bound-check IN CERT SKIP SPEED`: check the numbers in the file CERT for the packed song in the file IN.
    BoundCheck {
        input: &'a str,
        certificate: &'a str,
        /// What is left out of a frame, and the speed.
        options: Options,
    },
    /// `measure IN CALLS`: tell of each subtune of the PSID file IN how long it is and what its dearest call costs.
    Measure {
        input: &'a str,
        /// How many plays are looked at, at most: 1 to 1,000,000.
        calls: u32,
    },
    /// `chart IN OUT SUBTUNE CALLS`: write a picture (SVG) into the file OUT of how many clock cycles each play of a
    /// subtune of the PSID file IN takes.
    Chart {
        input: &'a str,
        output: &'a str,
        /// The subtune, counted from 1.
        subtune: u8,
        /// How many plays are drawn, 1 to 100,000.
        calls: u32,
    },
    /// `parts IN SKIP SPEED`: tell what the song in the file IN costs when it is packed, and why.
    Parts {
        input: &'a str,
        /// What is left out of a frame, and the speed.
        options: Options,
    },
}

/// No form of the command line has the words.
#[derive(Clone, Copy, Debug, PartialEq, Eq)]
pub struct WordsFault;

/// The job that the words name. The first word tells the command.
///
/// # Errors
///
/// The words are of no form, or one of them is out of its range.
pub fn parse_words(words: &[String]) -> Result<Job<'_>, WordsFault>
    ensures found { IfOk result (λ job. WordsOf (texts words.now) (job_of job)) }
    ensures limits { IfOk result (λ job. HasAllowedNumbers (job_of job)) }
    ensures none { OnErr result (IsNoForm (texts words.now)) }
{
    let Some((command, arguments)) = words.split_first() else {
        return Err(WordsFault);
    };
    match command_named(command.as_str()) {
        "pack" => commands::pack::pack_job(arguments),
        "copy" => commands::copy::copy_job(arguments),
        "edit" => commands::edit::edit_job(arguments),
        "check" => commands::check::check_job(arguments),
        "trace" => commands::trace::trace_job(arguments),
        "run" => commands::run::run_job(arguments),
        "selftest" => commands::selftest::selftest_job(arguments),
        "disasm" => commands::disasm::disasm_job(arguments),
        "asm" => commands::asm::asm_job(arguments),
        "join" => commands::join::join_job(arguments),
        "help" => commands::help::help_job(arguments),
        "version" => commands::version::version_job(arguments),
        "show" => commands::show::show_job(arguments),
        "bound" => commands::bound::bound_job(arguments),
        "bound-check" => commands::bound::bound_check_job(arguments),
        "measure" => commands::measure::measure_job(arguments),
        "chart" => commands::chart::chart_job(arguments),
        "parts" => commands::parts::parts_job(arguments),
        _ => Err(WordsFault),
    }
}

/// The command that a first word names.
fn command_named(word: &str) -> &str
    ensures { result.now ≡ command_named word.now }
{
    match word {
        "--help" | "-h" => "help",
        "--version" => "version",
        _ => word,
    }
}
