//! The words of `join IN SECOND OUT`.

ghost use Rattle.std.specs.Prelude.{◌≡◌, codes, IfOk, OnErr, List, ℕ};
ghost use Rattle.command_line.specs.Job.{job_of};
ghost use Rattle.command_line.specs.Words.{texts, HasAllowedNumbers, Join};
ghost use Rattle.command_line.specs.Forms.{command_of, AreArgumentsOf};

use crate::arguments::three_names;
use crate::words::{Job, WordsFault};

/// The job that the words after `join` name.
///
/// # Errors
///
/// They aren't three, or one of them is empty.
pub fn join_job(arguments: &[String]) -> Result<Job<'_>, WordsFault>
    ensures found { IfOk result (λ job. AreArgumentsOf (job_of job) (texts arguments.now)) }
    ensures command { IfOk result (λ job. command_of (job_of job) ≡ codes "join") }
    ensures limits { IfOk result (λ job. HasAllowedNumbers (job_of job)) }
    ensures none { OnErr result ((input second output : List ℕ) →
        ¬ AreArgumentsOf (Join input second output) (texts arguments.now)) }
{
    let (input, second, output) = three_names(arguments)?;
    Ok(Job::Join {
        input,
        second,
        output,
    })
}
