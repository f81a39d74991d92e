//! The words of `parts IN SKIP SPEED`.

ghost use Rattle.std.specs.Prelude.{◌≡◌, codes, IfOk, OnErr, List, ℕ};
ghost use Rattle.play_model.specs.declared.options.Options.{Options as Chosen};
ghost use Rattle.command_line.specs.Job.{job_of};
ghost use Rattle.command_line.specs.Words.{texts, HasAllowedNumbers, ArePartsArguments};
ghost use Rattle.command_line.specs.Forms.{command_of, AreArgumentsOf};

use crate::arguments::said_options;
use crate::words::{Job, WordsFault};

/// The job that the words after `parts` name.
///
/// # Errors
///
/// They aren't three, the name is empty, or one of the others is no option.
pub fn parts_job(arguments: &[String]) -> Result<Job<'_>, WordsFault>
    ensures found { IfOk result (λ job. AreArgumentsOf (job_of job) (texts arguments.now)) }
    ensures command { IfOk result (λ job. command_of (job_of job) ≡ codes "parts") }
    ensures limits { IfOk result (λ job. HasAllowedNumbers (job_of job)) }
    ensures none { OnErr result ((input : List ℕ) (options : Chosen) →
        ¬ ArePartsArguments (texts arguments.now) input options) }
{
    let [input, skip, speed] = arguments else {
        return Err(WordsFault);
    };
    if input.is_empty() {
        return Err(WordsFault);
    }
    let options = said_options(skip.as_str(), speed.as_str())?;
    Ok(Job::Parts {
        input: input.as_str(),
        options,
    })
}
