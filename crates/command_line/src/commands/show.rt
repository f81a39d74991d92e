//! The words of `show IN OUT`.

ghost use Rattle.std.specs.Prelude.{◌≡◌, codes, IfOk, OnErr, List, ℕ};
ghost use Rattle.command_line.specs.Job.{job_of};
ghost use Rattle.command_line.specs.Words.{texts, HasAllowedNumbers, Show};
ghost use Rattle.command_line.specs.Forms.{command_of, AreArgumentsOf};

use crate::arguments::two_names;
use crate::words::{Job, WordsFault};

/// The job that the words after `show` name.
///
/// # Errors
///
/// They aren't two, or one of them is empty.
pub fn show_job(arguments: &[String]) -> Result<Job<'_>, WordsFault>
    ensures found { IfOk result (λ job. AreArgumentsOf (job_of job) (texts arguments.now)) }
    ensures command { IfOk result (λ job. command_of (job_of job) ≡ codes "show") }
    ensures limits { IfOk result (λ job. HasAllowedNumbers (job_of job)) }
    ensures none { OnErr result ((input output : List ℕ) →
        ¬ AreArgumentsOf (Show input output) (texts arguments.now)) }
{
    let (input, output) = two_names(arguments)?;
    Ok(Job::Show { input, output })
}
