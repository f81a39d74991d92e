//! The words of `check IN`.

ghost use Rattle.std.specs.Prelude.{◌≡◌, codes, IfOk, OnErr, Ok, List, ℕ};
ghost use Rattle.command_line.specs.Job.{job_of};
ghost use Rattle.command_line.specs.Words.{texts, HasAllowedNumbers, Check};
ghost use Rattle.command_line.specs.Forms.{command_of, AreArgumentsOf};

use crate::words::{Job, WordsFault};

/// The job that the word after `check` names.
///
/// # Errors
///
/// It isn't one word, or it is empty.
pub fn check_job(arguments: &[String]) -> Result<Job<'_>, WordsFault>
    ensures found { IfOk result (λ job. AreArgumentsOf (job_of job) (texts arguments.now)) }
    ensures command { IfOk result (λ job. command_of (job_of job) ≡ codes "check") }
    ensures limits { IfOk result (λ job. HasAllowedNumbers (job_of job)) }
    ensures none { OnErr result ((input : List ℕ) →
        ¬ AreArgumentsOf (Check input) (texts arguments.now)) }
{
    let [input] = arguments else {
        return Err(WordsFault);
    };
    if input.is_empty() {
        return Err(WordsFault);
    }
    Ok(Job::Check {
        input: input.as_str(),
    })
}
