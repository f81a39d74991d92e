//! What a song asks of its player, as a set of conditions.

ghost use Rattle.std.specs.Prelude.{◌≡◌, ◌<◌};
ghost use Rattle.kept_lines.specs.Asked.{is_in, asks_fact, asks, asked, asked_by};

use packed_form::PackedSong;
use player_memory::conditions::{
    COMMON_TEMPO, FIRST_HOLDS, FIRST_MASK, FUNK_CHOICE, FUNK_TURNS, GATE_NOTE, LEGATO,
    NO_HARD_RESTART, NOTE_FILTER, NOTE_PULSE, NOTE_VIBRATO, OWN_TIMER, OWN_WAVE, ROW_COMMAND,
    ROW_ONCE, ROW_SLIDE, ROW_TONE, SUBTUNES, VIBRATO_DELAY, VOICE_TEMPO, VOICE_THREE, VOICE_TWO,
    WAVE_DELAY,
};
use scope_lines::Conditions;
use song_facts::Facts;
use song_model::FeatureBits;

/// Whether a song uses a feature.
fn uses(features: FeatureBits, feature: u8) -> bool
    requires { feature < 24 }
    ensures { result ≡ is_in features.0 feature }
{
    (features.0 >> u32::from(feature)) & 1 == 1
}

/// Whether a condition is that of a fact which a song has.
fn asks_fact(facts: &Facts, condition: u8) -> bool
    ensures { result ≡ asks_fact facts.now condition }
{
    match condition {
        ROW_TONE => facts.row_tone,
        ROW_SLIDE => facts.row_slide,
        ROW_ONCE => facts.row_once,
        FIRST_MASK => facts.first_mask,
        LEGATO => facts.legato,
        NO_HARD_RESTART => facts.no_hard_restart,
        WAVE_DELAY => facts.wave_delay,
        GATE_NOTE => facts.gate_note,
        NOTE_VIBRATO => facts.note_vibrato,
        VIBRATO_DELAY => facts.vibrato_delay,
        NOTE_PULSE => facts.note_pulse,
        NOTE_FILTER => facts.note_filter,
        VOICE_TEMPO => facts.voice_tempo,
        COMMON_TEMPO => facts.common_tempo,
        FUNK_TURNS => facts.funk_turns,
        FUNK_CHOICE => facts.funk_choice,
        OWN_TIMER => facts.own_timer,
        OWN_WAVE => facts.own_wave,
        SUBTUNES => facts.subtunes,
        VOICE_TWO => facts.voice_two,
        VOICE_THREE => facts.voice_three,
        FIRST_HOLDS => facts.first_holds,
        _ => false,
    }
}

/// Whether a condition is asked for.
fn asks(features: FeatureBits, facts: &Facts, condition: u8) -> bool
    ensures { result ≡ asks features.0 facts.now condition }
{
    if condition < 24 {
        uses(features, condition)
    } else {
        asks_fact(facts, condition)
    }
}

/// What a song with these features and facts asks of its player.
#[tactic(auto, unfolding(crate::specs::Asked::asked))]
pub fn asked(features: FeatureBits, facts: &Facts) -> Conditions
    ensures { result.0 ≡ asked features.0 facts.now }
{
    let mut set: u128 = 0;
    for condition in 0..ROW_COMMAND {
        if asks(features, facts, condition) {
            set += 1 << u32::from(condition);
        }
    }
    Conditions(set)
}

/// What a packed song asks of its player.
pub fn asked_by(packed: &PackedSong) -> Conditions
    ensures { result.0 ≡ asked_by packed.now }
{
    asked(packed.features, &packed.facts)
}
