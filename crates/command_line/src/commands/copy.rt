//! The words of `copy IN OUT`.

ghost use Rattle.std.specs.Prelude.{◌≡◌, codes, IfOk, OnErr, List, ℕ};
ghost use Rattle.command_line.specs.Job.{job_of};
ghost use Rattle.command_line.specs.Words.{texts, HasAllowedNumbers, Copy};
ghost use Rattle.command_line.specs.Forms.{command_of, AreArgumentsOf};

use crate::arguments::two_names;
use crate::words::{Job, WordsFault};

/// The job that the words after `copy` name.
///
/// # Errors
///
/// They aren't two, or one of them is empty.
pub fn copy_job(arguments: &[String]) -> Result<Job<'_>, WordsFault>
    ensures found { IfOk result (λ job. AreArgumentsOf (job_of job) (texts arguments.now)) }
    ensures command { IfOk result (λ job. command_of (job_of job) ≡ codes "copy") }
    ensures limits { IfOk result (λ job. HasAllowedNumbers (job_of job)) }
    ensures none { OnErr result ((input output : List ℕ) →
        ¬ AreArgumentsOf (Copy input output) (texts arguments.now)) }
{
    let (input, output) = two_names(arguments)?;
    Ok(Job::Copy { input, output })
}
