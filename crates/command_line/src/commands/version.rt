//! The words of `version`.

ghost use Rattle.std.specs.Prelude.{◌≡◌, codes, IfOk, OnErr};
ghost use Rattle.command_line.specs.Job.{job_of};
ghost use Rattle.command_line.specs.Words.{texts, HasAllowedNumbers, Version};
ghost use Rattle.command_line.specs.Forms.{command_of, AreArgumentsOf};

use crate::words::{Job, WordsFault};

/// The job that the words after `version` name.
///
/// # Errors
///
/// There are any.
pub fn version_job(arguments: &[String]) -> Result<Job<'_>, WordsFault>
    ensures found { IfOk result (λ job. AreArgumentsOf (job_of job) (texts arguments.now)) }
    ensures command { IfOk result (λ job. command_of (job_of job) ≡ codes "version") }
    ensures limits { IfOk result (λ job. HasAllowedNumbers (job_of job)) }
    ensures none { OnErr result (¬ AreArgumentsOf Version (texts arguments.now)) }
{
    match arguments {
        [] => Ok(Job::Version),
        _ => Err(WordsFault),
    }
}
