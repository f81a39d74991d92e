//! Whether the voices of both songs begin with the same gateoff timer.

ghost use Rattle.std.specs.Prelude.{◌≡◌, IfErr, OnOk};
ghost use Rattle.song_join.specs.Refusals.{first_timer, TimersDiffer, IsTimerFault};

use crate::JoinFault;
use song_model::Song;

/// The low six bits of the gateoff timer of instrument 1.
fn first_timer(song: &Song) -> u8
    ensures { result ≡ first_timer song.now }
{
    song.instrument(1).gate_timer % 64
}

/// Looks whether the gateoff timers of both instruments 1 have the same low six bits.
///
/// # Errors
///
/// They differ.
pub(crate) fn check_timers(first: &Song, second: &Song) -> Result<(), JoinFault>
    ensures found { IfErr result (IsTimerFault first.now second.now) }
    ensures none { OnOk result (first_timer first.now ≡ first_timer second.now) }
{
    let one = first_timer(first);
    let two = first_timer(second);
    if one != two {
        return Err(JoinFault::GateTimer {
            first: one,
            second: two,
        });
    }
    Ok(())
}
