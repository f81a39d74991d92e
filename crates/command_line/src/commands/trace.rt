//! The words of `trace IN SUBTUNE FRAMES`, or with `SKIP SPEED` behind it.

ghost use Rattle.std.specs.Prelude.{◌≡◌, ℕ, codes, IfOk, OnErr, List};
ghost use Rattle.play_model.specs.declared.options.Options.{Options as Chosen};
ghost use Rattle.command_line.specs.Job.{job_of};
ghost use Rattle.command_line.specs.Words.{texts, HasAllowedNumbers, AreTraceArguments};
ghost use Rattle.command_line.specs.Forms.{command_of, AreArgumentsOf};

use crate::arguments::{FRAME_LIMIT, SUBTUNE_LIMIT, decimal_of, options_of};
use crate::words::{Job, WordsFault};

/// The job that the words after `trace` name.
///
/// # Errors
///
/// They are neither three nor five, or one of them is out of its range.
pub fn trace_job(arguments: &[String]) -> Result<Job<'_>, WordsFault>
    ensures found { IfOk result (λ job. AreArgumentsOf (job_of job) (texts arguments.now)) }
    ensures command { IfOk result (λ job. command_of (job_of job) ≡ codes "trace") }
    ensures limits { IfOk result (λ job. HasAllowedNumbers (job_of job)) }
    ensures none { OnErr result ((input : List ℕ) (subtune frames : ℕ) (options : Chosen) →
        ¬ AreTraceArguments (texts arguments.now) input subtune frames options) }
{
    let [input, subtune, frames, words @ ..] = arguments else {
        return Err(WordsFault);
    };
    if input.is_empty() {
        return Err(WordsFault);
    }
    let subtune = decimal_of(subtune.as_str(), SUBTUNE_LIMIT)?;
    let frames = decimal_of(frames.as_str(), FRAME_LIMIT)?;
    let options = options_of(words)?;
    Ok(Job::Trace {
        input: input.as_str(),
        subtune: subtune as u8,
        frames: frames as u32,
        options,
    })
}
