//! The conditions that hold for what a song asks for and for options.

ghost use Rattle.std.specs.Prelude.{◌≡◌, ◌<◌};
ghost use Rattle.kept_lines.specs.Asked.{is_in};
ghost use Rattle.kept_lines.specs.KeptLines.{has_in_common, keeps, kept_set};

use play_model::Options;
use player_memory::conditions::{
    CLIMB, CONDITIONS, DROP, EFFECTS, FILTER_TABLE, FILTER_USED, FOUND_NOTE, HELD_NOTE,
    INSTRUMENT_VIBRATO, LEGATO, NO_HARD_RESTART, NOTE_DEPENDENT, PORTA_DOWN, PORTA_UP, RISE,
    ROW_COMMAND, ROW_ONCE, ROW_SLIDE, ROW_TONE, SET_CUTOFF, SET_FILTER_CONTROL, SINK, SKIP_EFFECTS,
    SKIP_FIRST, SKIP_PULSE, SPECIAL_ROW, SWINGS, TIE_NOTE, TIMED, TONE_PORTA, VIBRATO,
    WAVE_COMMAND, WAVE_DELAY,
};
use scope_lines::Conditions;

/// Whether a condition is in a set.
fn is_in(set: Conditions, condition: u8) -> bool
    requires { condition < 128 }
    ensures { result ≡ is_in set.0 condition }
{
    (set.0 >> u32::from(condition)) & 1 == 1
}

/// Whether any of the features and facts is asked for that have these lines in common.
fn has_in_common(asked: Conditions, condition: u8) -> bool
    ensures { result ≡ has_in_common asked.0 condition }
{
    let up = is_in(asked, PORTA_UP);
    let down = is_in(asked, PORTA_DOWN);
    let tone = is_in(asked, TONE_PORTA);
    let vibrato = is_in(asked, VIBRATO) || is_in(asked, INSTRUMENT_VIBRATO);
    let calculated = is_in(asked, NOTE_DEPENDENT);
    let tie = is_in(asked, TIE_NOTE);
    let row_slide = is_in(asked, ROW_SLIDE);
    let wave_command = is_in(asked, WAVE_COMMAND);
    match condition {
        SWINGS => vibrato,
        CLIMB => up || tone || calculated,
        DROP => down || tone || calculated,
        RISE => up || tone || vibrato,
        SINK => down || tone || vibrato,
        FOUND_NOTE => tone || tie,
        ROW_COMMAND => is_in(asked, ROW_TONE) || row_slide || is_in(asked, ROW_ONCE),
        SPECIAL_ROW => is_in(asked, WAVE_DELAY) || wave_command,
        HELD_NOTE => is_in(asked, LEGATO) || is_in(asked, NO_HARD_RESTART),
        EFFECTS => up || down || tone || tie || vibrato || wave_command || row_slide,
        FILTER_USED => {
            is_in(asked, FILTER_TABLE)
                || is_in(asked, SET_FILTER_CONTROL)
                || is_in(asked, SET_CUTOFF)
        }
        _ => false,
    }
}

/// Whether a condition holds.
fn keeps(asked: Conditions, options: &Options, condition: u8) -> bool
    ensures { result ≡ keeps asked.0 options.now condition }
{
    if condition < 24 || (ROW_TONE <= condition && condition < ROW_COMMAND) {
        is_in(asked, condition)
    } else if condition == SKIP_EFFECTS {
        options.skip_effects
    } else if condition == SKIP_PULSE {
        options.skip_pulse
    } else if condition == TIMED {
        options.speed.calls() > 1
    } else if condition == SKIP_FIRST {
        options.skip_first
    } else {
        has_in_common(asked, condition)
    }
}

/// The conditions that hold for what a song asks for (`asked`) and for options.
#[tactic(auto, unfolding(crate::specs::KeptLines::kept_set))]
pub fn conditions(asked: Conditions, options: Options) -> Conditions
    ensures { result.0 ≡ kept_set asked.0 options }
{
    let mut set: u128 = 0;
    for condition in 0..CONDITIONS {
        if keeps(asked, &options, condition) {
            set += 1 << u32::from(condition);
        }
    }
    Conditions(set)
}
