//! The words of `disasm IN OUT`.

ghost use Rattle.std.specs.Prelude.{◌≡◌, codes, IfOk, OnErr, List, ℕ};
ghost use Rattle.command_line.specs.Job.{job_of};
ghost use Rattle.command_line.specs.Words.{texts, HasAllowedNumbers, Disasm};
ghost use Rattle.command_line.specs.Forms.{command_of, AreArgumentsOf};

use crate::arguments::two_names;
use crate::words::{Job, WordsFault};

/// The job that the words after `disasm` name.
///
/// # Errors
///
/// They aren't two, or one of them is empty.
pub fn disasm_job(arguments: &[String]) -> Result<Job<'_>, WordsFault>
    ensures found { IfOk result (λ job. AreArgumentsOf (job_of job) (texts arguments.now)) }
    ensures command { IfOk result (λ job. command_of (job_of job) ≡ codes "disasm") }
    ensures limits { IfOk result (λ job. HasAllowedNumbers (job_of job)) }
    ensures none { OnErr result ((input output : List ℕ) →
        ¬ AreArgumentsOf (Disasm input output) (texts arguments.now)) }
{
    let (input, output) = two_names(arguments)?;
    Ok(Job::Disasm { input, output })
}
