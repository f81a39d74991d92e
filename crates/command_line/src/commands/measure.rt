//! The words of `measure IN CALLS`.

ghost use Rattle.std.specs.Prelude.{◌≡◌, ℕ, codes, IfOk, OnErr, List};
ghost use Rattle.command_line.specs.Job.{job_of};
ghost use Rattle.command_line.specs.Words.{texts, HasAllowedNumbers, AreMeasureArguments};
ghost use Rattle.command_line.specs.Forms.{command_of, AreArgumentsOf};

use crate::arguments::{MEASURE_LIMIT, count_of};
use crate::words::{Job, WordsFault};

/// The job that the words after `measure` name.
///
/// # Errors
///
/// They aren't two, the name is empty, or the other is no number of calls.
pub fn measure_job(arguments: &[String]) -> Result<Job<'_>, WordsFault>
    ensures found { IfOk result (λ job. AreArgumentsOf (job_of job) (texts arguments.now)) }
    ensures command { IfOk result (λ job. command_of (job_of job) ≡ codes "measure") }
    ensures limits { IfOk result (λ job. HasAllowedNumbers (job_of job)) }
    ensures none { OnErr result ((input : List ℕ) (calls : ℕ) →
        ¬ AreMeasureArguments (texts arguments.now) input calls) }
{
    let [input, calls] = arguments else {
        return Err(WordsFault);
    };
    if input.is_empty() {
        return Err(WordsFault);
    }
    let calls = count_of(calls.as_str(), MEASURE_LIMIT)?;
    Ok(Job::Measure {
        input: input.as_str(),
        calls: calls as u32,
    })
}
