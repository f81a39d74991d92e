//! A call more: of a loaded file, and of a song that is played.

ghost use Rattle.std.specs.Prelude.{◌≡◌, ℕ, ◌-◌, None, IfOk, IfErr, OnOk};
ghost use Rattle.song_model.specs.declared.songs.Song.{Song};
ghost use Rattle.play_model.specs.declared.options.Options.{Options};
ghost use Rattle.play_model.specs.Frame.{trace_with};
ghost use Rattle.playroutine.specs.Played.{StandsAfter};
ghost use Rattle.cpu6502.specs.Call.{FailsBy};
ghost use Rattle.sid_run.specs.State.{most_steps};
ghost use Rattle.song_length.specs.Plays.{Takes};
ghost use Rattle.jobs.specs.Calls.{entry_of, accumulator_of, ReturnsTo};

use cpu6502::CallStop;
use playroutine::Player;
use sid_run::Runner;

/// Makes the call with this index: call 0 is init, the others are play.
///
/// # Errors
///
/// The reason why the call did not return.
pub fn next_call(runner: &mut Runner, number: u8, call: u32) -> Result<[u8; 25], CallStop>
    requires { runner.old.stopped ≡ None }
    ensures returned { IfOk result (λ registers. ReturnsTo runner.old.machine
        (entry_of runner.old call)
        (accumulator_of number call runner.old.machine) registers runner.new.machine) }
    ensures takes { OnOk result (Takes runner.old.machine (entry_of runner.old call)
        (accumulator_of number call runner.old.machine) runner.new.spent runner.new.machine) }
    ensures failed { IfErr result (λ reason. FailsBy runner.old.machine (entry_of runner.old call)
        (accumulator_of number call runner.old.machine) most_steps reason runner.new.machine) }
    ensures running { OnOk result (runner.new.stopped ≡ None) }
    ensures same_init { runner.new.init ≡ runner.old.init }
    ensures same_play { runner.new.play ≡ runner.old.play }
{
    if call == 0 {
        runner.init(number)
    } else {
        runner.play()
    }
}

/// What the call with this index leaves in the registers: call 0 is the start, which leaves zeros; each other one plays
/// a frame.
pub fn next_frame(player: &mut Player, call: u32) -> [u8; 25]
    ensures { (song : Song) (k : ℕ) (options : Options) →
        StandsAfter player.old song k options (call - 1) →
        (result ≡ trace_with options song k call) × StandsAfter player.new song k options call }
{
    if call == 0 { [0; 25] } else { player.frame() }
}
