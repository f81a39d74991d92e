//! The numbers with which a subtune begins.

ghost use Rattle.std.specs.Prelude.{◌≡◌};
ghost use Rattle.kept_lines.specs.Starts.{start_of};

use play_model::Options;
use player_text::texts::Start;

/// The numbers with which a subtune begins: the tempos, and the timer's value.
pub fn start_of(options: &Options) -> Start
    ensures { result ≡ start_of options.now }
{
    let speed = options.speed.calls();
    let timer = options.timer_value();
    Start {
        tempo: 6 * speed - 1,
        funk: 9 * speed - 1,
        timer_low: (timer % 256) as u8,
        timer_high: (timer / 256) as u8,
    }
}
