//! The words of `selftest NUMBER`.

ghost use Rattle.std.specs.Prelude.{◌≡◌, ℕ, ◌<◌, codes, IfOk, OnErr, Ok};
ghost use Rattle.command_line.specs.Job.{job_of};
ghost use Rattle.command_line.specs.Words.{texts, HasAllowedNumbers, AreSelftestArguments, Selftest};
ghost use Rattle.command_line.specs.Forms.{command_of, AreArgumentsOf};

use crate::arguments::decimal_of;
use crate::words::{Job, WordsFault};

/// The job that the word after `selftest` names.
///
/// # Errors
///
/// It isn't one word, or that isn't a number of at most 64 bits in decimal digits, without zeros in front.
pub fn selftest_job(arguments: &[String]) -> Result<Job<'_>, WordsFault>
    ensures found { IfOk result (λ job. AreArgumentsOf (job_of job) (texts arguments.now)) }
    ensures command { IfOk result (λ job. command_of (job_of job) ≡ codes "selftest") }
    ensures limits { IfOk result (λ job. HasAllowedNumbers (job_of job)) }
    ensures none { OnErr result ((number : ℕ) →
        ¬ AreSelftestArguments (texts arguments.now) number) }
{
    let [number] = arguments else {
        return Err(WordsFault);
    };
    let number = decimal_of(number.as_str(), u64::MAX)?;
    Ok(Job::Selftest { number })
}
