//! The words of `chart IN OUT SUBTUNE CALLS`.

ghost use Rattle.std.specs.Prelude.{◌≡◌, ℕ, codes, IfOk, OnErr, List};
ghost use Rattle.command_line.specs.Job.{job_of};
ghost use Rattle.command_line.specs.Words.{texts, HasAllowedNumbers, AreChartArguments};
ghost use Rattle.command_line.specs.Forms.{command_of, AreArgumentsOf};

use crate::arguments::{CHART_LIMIT, SUBTUNE_LIMIT, count_of, decimal_of};
use crate::words::{Job, WordsFault};

/// The job that the words after `chart` name.
///
/// # Errors
///
/// They aren't four, a name is empty, or one of the numbers is out of its range.
pub fn chart_job(arguments: &[String]) -> Result<Job<'_>, WordsFault>
    ensures found { IfOk result (λ job. AreArgumentsOf (job_of job) (texts arguments.now)) }
    ensures command { IfOk result (λ job. command_of (job_of job) ≡ codes "chart") }
    ensures limits { IfOk result (λ job. HasAllowedNumbers (job_of job)) }
    ensures none { OnErr result ((input output : List ℕ) (subtune calls : ℕ) →
        ¬ AreChartArguments (texts arguments.now) input output subtune calls) }
{
    let [input, output, subtune, calls] = arguments else {
        return Err(WordsFault);
    };
    if input.is_empty() || output.is_empty() {
        return Err(WordsFault);
    }
    let subtune = decimal_of(subtune.as_str(), SUBTUNE_LIMIT)?;
    let calls = count_of(calls.as_str(), CHART_LIMIT)?;
    Ok(Job::Chart {
        input: input.as_str(),
        output: output.as_str(),
        subtune: subtune as u8,
        calls: calls as u32,
    })
}
