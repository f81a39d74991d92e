//! The words of `run IN SUBTUNE FRAMES`.

ghost use Rattle.std.specs.Prelude.{◌≡◌, ℕ, codes, IfOk, OnErr, List};
ghost use Rattle.command_line.specs.Job.{job_of};
ghost use Rattle.command_line.specs.Words.{texts, HasAllowedNumbers, AreRunArguments, Run};
ghost use Rattle.command_line.specs.Forms.{command_of, AreArgumentsOf};

use crate::arguments::{FRAME_LIMIT, SUBTUNE_LIMIT, decimal_of};
use crate::words::{Job, WordsFault};

/// The job that the words after `run` name.
///
/// # Errors
///
/// They aren't three, or one of them is out of its range.
pub fn run_job(arguments: &[String]) -> Result<Job<'_>, WordsFault>
    ensures found { IfOk result (λ job. AreArgumentsOf (job_of job) (texts arguments.now)) }
    ensures command { IfOk result (λ job. command_of (job_of job) ≡ codes "run") }
    ensures limits { IfOk result (λ job. HasAllowedNumbers (job_of job)) }
    ensures none { OnErr result ((input : List ℕ) (subtune frames : ℕ) →
        ¬ AreRunArguments (texts arguments.now) input subtune frames) }
{
    let [input, subtune, frames] = arguments else {
        return Err(WordsFault);
    };
    if input.is_empty() {
        return Err(WordsFault);
    }
    let subtune = decimal_of(subtune.as_str(), SUBTUNE_LIMIT)?;
    let frames = decimal_of(frames.as_str(), FRAME_LIMIT)?;
    Ok(Job::Run {
        input: input.as_str(),
        subtune: subtune as u8,
        frames: frames as u32,
    })
}
