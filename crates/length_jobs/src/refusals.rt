//! The refusal of a file that can't be measured.

ghost use Rattle.std.specs.Prelude.{◌≡◌};
ghost use Rattle.command_line.specs.Last.{last_of};
ghost use Rattle.length_jobs.specs.Refusals.{refusal_says};

use command_line::Refusal;
use jobs::run::stop_refusal;
use song_length::MeasureFault;

/// The refusal of a subtune of which a call doesn't return; or that memory is wanting.
pub fn fault_refusal(fault: MeasureFault) -> Refusal<'static>
    ensures { last_of result ≡ refusal_says fault }
{
    match fault {
        MeasureFault::NoMemory => Refusal::NoMemory,
        MeasureFault::Stopped { call, reason } => stop_refusal(reason, call),
    }
}
