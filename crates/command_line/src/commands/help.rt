//! The words of `help`, or with the first word of a form behind it.

ghost use Rattle.std.specs.Prelude.{◌≡◌, codes, IfOk, OnErr};
ghost use Rattle.command_line.specs.declared.topics.Topic.{Topic as Asked};
ghost use Rattle.command_line.specs.Job.{job_of};
ghost use Rattle.command_line.specs.Words.{texts, HasAllowedNumbers, Help};
ghost use Rattle.command_line.specs.Forms.{command_of, AreArgumentsOf};

use crate::topics::{Topic, form_named};
use crate::words::{Job, WordsFault};

/// The job that the words after `help` name.
///
/// # Errors
///
/// They are more than one, or no form begins with the one.
pub fn help_job(arguments: &[String]) -> Result<Job<'_>, WordsFault>
    ensures found { IfOk result (λ job. AreArgumentsOf (job_of job) (texts arguments.now)) }
    ensures command { IfOk result (λ job. command_of (job_of job) ≡ codes "help") }
    ensures limits { IfOk result (λ job. HasAllowedNumbers (job_of job)) }
    ensures none { OnErr result ((topic : Asked) →
        ¬ AreArgumentsOf (Help topic) (texts arguments.now)) }
{
    match arguments {
        [] => Ok(Job::Help { topic: Topic::All }),
        [form] => Ok(Job::Help {
            topic: form_named(form.as_str())?,
        }),
        _ => Err(WordsFault),
    }
}
