//! The words of `pack IN OUT psid|raw ADDRESS ZP`, or with `SKIP SPEED` or `SKIP SPEED SYSTEM CHIP` behind it.

ghost use Rattle.std.specs.Prelude.{◌≡◌, ◌∷◌, codes, Bool, IfOk, OnErr, List, ℕ};
ghost use Rattle.play_model.specs.declared.options.Options.{Options as Chosen};
ghost use Rattle.command_line.specs.declared.chip.Chip.{Chip as Sid};
ghost use Rattle.command_line.specs.Job.{job_of};
ghost use Rattle.command_line.specs.Words.{texts, HasAllowedNumbers, ArePackArguments};
ghost use Rattle.command_line.specs.Forms.{command_of, AreArgumentsOf};

use crate::arguments::{address_of, is_psid, pack_options_of, zero_page_of};
use crate::words::{Job, WordsFault};

/// The job that the words after `pack` name.
///
/// # Errors
///
/// They are none of five, seven and nine, or one of them is out of its range.
pub fn pack_job(arguments: &[String]) -> Result<Job<'_>, WordsFault>
    ensures found { IfOk result (λ job. AreArgumentsOf (job_of job) (texts arguments.now)) }
    ensures command { IfOk result (λ job. command_of (job_of job) ≡ codes "pack") }
    ensures limits { IfOk result (λ job. HasAllowedNumbers (job_of job)) }
    ensures none { OnErr result ((input output : List ℕ) (psid : Bool) (address zero_page : ℕ)
        (options : Chosen) (sid : Sid) →
        ¬ ArePackArguments (texts arguments.now) input output psid address zero_page options sid) }
{
    let [input, output, format, address, zero_page, words @ ..] = arguments else {
        return Err(WordsFault);
    };
    pack_of(
        input.as_str(),
        output.as_str(),
        format.as_str(),
        address.as_str(),
        zero_page.as_str(),
        words,
    )
}

/// The job that these words name, with those behind ZP as a list.
///
/// # Errors
///
/// A name is empty, the format is none, one of the numbers is out of its range, or the list is of no form.
fn pack_of<'a>(
    input: &'a str,
    output: &'a str,
    format: &str,
    address: &str,
    zero_page: &str,
    words: &[String],
) -> Result<Job<'a>, WordsFault>
    ensures found { IfOk result (λ job. AreArgumentsOf (job_of job) (input.now ∷ output.now ∷
        format.now ∷ address.now ∷ zero_page.now ∷ texts words.now)) }
    ensures command { IfOk result (λ job. command_of (job_of job) ≡ codes "pack") }
    ensures limits { IfOk result (λ job. HasAllowedNumbers (job_of job)) }
    ensures none { OnErr result ((i o : List ℕ) (psid : Bool) (a z : ℕ) (how : Chosen) (sid : Sid) →
        ¬ ArePackArguments (input.now ∷ output.now ∷ format.now ∷ address.now ∷ zero_page.now ∷
        texts words.now) i o psid a z how sid) }
{
    if input.is_empty() || output.is_empty() {
        return Err(WordsFault);
    }
    let psid = is_psid(format)?;
    let address = address_of(address)?;
    let zero_page = zero_page_of(zero_page)?;
    let (options, chip) = pack_options_of(words)?;
    Ok(Job::Pack {
        input,
        output,
        psid,
        address,
        zero_page,
        options,
        chip,
    })
}
