//! The words of `bound IN OUT SKIP SPEED`, and of `bound-check IN CERT SKIP SPEED`.

ghost use Rattle.std.specs.Prelude.{◌≡◌, codes, IfOk, OnErr, List, ℕ};
ghost use Rattle.play_model.specs.declared.options.Options.{Options as Chosen};
ghost use Rattle.command_line.specs.Job.{job_of};
ghost use Rattle.command_line.specs.Words.{texts, HasAllowedNumbers, AreBoundArguments};
ghost use Rattle.command_line.specs.Forms.{command_of, AreArgumentsOf};

use crate::arguments::said_options;
use crate::words::{Job, WordsFault};

/// The job that the words after `bound` name.
///
/// # Errors
///
/// They aren't four, a name is empty, or one of the others is no option.
pub fn bound_job(arguments: &[String]) -> Result<Job<'_>, WordsFault>
    ensures found { IfOk result (λ job. AreArgumentsOf (job_of job) (texts arguments.now)) }
    ensures command { IfOk result (λ job. command_of (job_of job) ≡ codes "bound") }
    ensures limits { IfOk result (λ job. HasAllowedNumbers (job_of job)) }
    ensures none { OnErr result ((input output : List ℕ) (options : Chosen) →
        ¬ AreBoundArguments (texts arguments.now) input output options) }
{
    let [input, output, skip, speed] = arguments else {
        return Err(WordsFault);
    };
    if input.is_empty() || output.is_empty() {
        return Err(WordsFault);
    }
    let options = said_options(skip.as_str(), speed.as_str())?;
    Ok(Job::Bound {
        input: input.as_str(),
        output: output.as_str(),
        options,
    })
}

/// The job that the words after `bound-check` name.
///
/// # Errors
///
/// They aren't four, a name is empty, or one of the others is no option.
pub fn bound_check_job(arguments: &[String]) -> Result<Job<'_>, WordsFault>
    ensures found { IfOk result (λ job. AreArgumentsOf (job_of job) (texts arguments.now)) }
    ensures command { IfOk result (λ job. command_of (job_of job) ≡ codes "bound-check") }
    ensures limits { IfOk result (λ job. HasAllowedNumbers (job_of job)) }
    ensures none { OnErr result ((input certificate : List ℕ) (options : Chosen) →
        ¬ AreBoundArguments (texts arguments.now) input certificate options) }
{
    let [input, certificate, skip, speed] = arguments else {
        return Err(WordsFault);
    };
    if input.is_empty() || certificate.is_empty() {
        return Err(WordsFault);
    }
    let options = said_options(skip.as_str(), speed.as_str())?;
    Ok(Job::BoundCheck {
        input: input.as_str(),
        certificate: certificate.as_str(),
        options,
    })
}
