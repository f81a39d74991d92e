//! What each of a song's plays costs.

ghost use Rattle.std.specs.Prelude.{◌≡◌, ◌+◌, ◌≤◌, length, IfOk, IfErr};
ghost use Rattle.cpu6502.specs.declared.memory.TheConstants.{MEMORY_SIZE};
ghost use Rattle.song_length.specs.declared.measuring.TheConstants.{MOST_CALLS};
ghost use Rattle.song_length.specs.Told.{CostSo, IsFault};

use crate::measuring::{MeasureFault, started};
use base::Items;
use psid::Psid;
use std::alloc::Global;

/// The clock cycles of each of the first plays of a song, whose number counts from 0, in order; at most 1,400,000 each.
///
/// # Errors
///
/// Init, or one of these plays, doesn't return; or out of memory.
pub fn play_cycles(
    alloc: Global,
    psid: &Psid,
    song: u8,
    calls: u32,
) -> Result<Items<u32>, MeasureFault>
    requires fits { psid.now.load + length psid.now.image ≤ MEMORY_SIZE }
    requires few { calls ≤ MOST_CALLS }
    ensures cost { IfOk result (CostSo psid.now song calls) }
    ensures fault { IfErr result (IsFault psid.now song calls) }
{
    let mut runner = started(alloc, psid, song)?;
    let mut cycles = Items::new(alloc);
    for before in 0..calls {
        match runner.play() {
            Ok(_registers) => cycles.push(runner.cycles() as u32)?,
            Err(reason) => {
                let call = before + 1;
                return Err(MeasureFault::Stopped { call, reason });
            }
        }
    }
    Ok(cycles)
}
