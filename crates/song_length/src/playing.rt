//! A song as it is played.

ghost use Rattle.std.specs.Prelude.{◌≡◌, min};

use crate::counts::Counts;
use cpu6502::{CallStop, Machine};
use sid_run::Runner;

/// A song that is played, and what is counted of its plays.
#[derive(Drop)]
pub struct Playing {
    /// The machine.
    pub runner: Runner,
    /// The counts.
    pub counts: Counts,
}

impl Playing {
    ghost use Rattle.std.specs.Prelude.{◌≡◌, ◌+◌, ◌<◌, ◌≤◌, ◌^◌, None, OnOk, IfOk, IfErr};
    ghost use Rattle.cpu6502.specs.declared.machine.Machine.{Machine};
    ghost use Rattle.cpu6502.specs.Call.{FailsBy};
    ghost use Rattle.sid_run.specs.State.{most_steps};
    ghost use Rattle.song_length.specs.declared.measuring.TheConstants.{MOST_CALLS};
    ghost use Rattle.song_length.specs.Coming.{IsAt, ComesTo, StopsOn, Period, PlayStops};

    /// Plays once more.
    ///
    /// # Errors
    ///
    /// The play doesn't return.
    pub fn play(&mut self) -> Result<(), CallStop>
        requires running { self.old.runner.stopped ≡ None }
        requires room { self.old.counts.calls + 1 < 2 ^ 32 }
        ensures on { OnOk result ((first : Machine) → IsAt first self.old → IsAt first self.new) }
        ensures calls { OnOk result (self.new.counts.calls ≡ self.old.counts.calls + 1) }
        ensures limit { self.new.counts.limit ≡ self.old.counts.limit }
        ensures address { self.new.runner.play ≡ self.old.runner.play }
        ensures running { OnOk result (self.new.runner.stopped ≡ None) }
        ensures stopped { IfErr result (λ reason. FailsBy self.old.runner.machine self.old.runner.play
            self.old.runner.machine.cpu.a most_steps reason self.new.runner.machine) }
        ensures same { IfErr result (λ reason. self.new.counts ≡ self.old.counts) }
    {
        let _registers = self.runner.play()?;
        self.counts.note(self.runner.cycles());
        Ok(())
    }

    /// Plays until the machine is in this state again, in which it is now, but at most so many times. Answers after how many
    /// plays it is.
    ///
    /// # Errors
    ///
    /// A play doesn't return.
    pub fn plays_until(&mut self, state: &Machine, most: u32) -> Result<Option<u32>, CallStop>
        requires running { self.old.runner.stopped ≡ None }
        requires room { self.old.counts.calls + most < 2 ^ 32 }
        ensures comes { IfOk result (ComesTo self.old self.new state.now most) }
        ensures stops { IfErr result (StopsOn self.old self.new most) }
    {
        let mut plays = 0;
        while plays < most {
            self.play()?;
            plays += 1;
            if self.runner.machine().is_same(state) {
                return Ok(Some(plays));
            }
        }
        Ok(None)
    }

    /// After how many plays the state of the song comes again, from some play on; none where no two of its states after the
    /// first plays are the same, up to the limit. Another machine keeps a state that may come again.
    ///
    /// # Errors
    ///
    /// A play doesn't return.
    pub fn period(&mut self, state: &mut Machine) -> Result<Option<u32>, CallStop>
        requires running { self.old.runner.stopped ≡ None }
        requires begins { self.old.counts.calls ≡ 0 }
        requires some { 1 ≤ self.old.counts.limit }
        requires few { self.old.counts.limit ≤ MOST_CALLS }
        ensures period { IfOk result (Period self.old self.new) }
        ensures stops { IfErr result (PlayStops self.old self.new) }
        ensures address { OnOk result (self.new.runner.play ≡ self.old.runner.play) }
        ensures limit { OnOk result (self.new.counts.limit ≡ self.old.counts.limit) }
    {
        let limit = self.counts.limit;
        let mut window = 1;
        loop {
            state.copy_from(self.runner.machine());
            let found = self.plays_until(&*state, least(window, limit))?;
            if found.is_some() || window >= limit {
                return Ok(found);
            }
            window *= 2;
        }
    }
}

/// The lesser of two numbers.
fn least(one: u32, other: u32) -> u32
    ensures { result ≡ min one other }
{
    if one < other { one } else { other }
}
