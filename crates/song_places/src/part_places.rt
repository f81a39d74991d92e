//! The first place of a song that needs a part of the player.

ghost use Rattle.std.specs.Prelude.{◌≡◌, ◌^◌, IfSome, IfNone, None};
ghost use Rattle.song_model.specs.Feature.{bit_of};
ghost use Rattle.play_model.specs.State.{no_options};
ghost use Rattle.player_memory.specs.FactLines.{fact_condition};
ghost use Rattle.kept_lines.specs.KeptLines.{keeps};
ghost use Rattle.usage.specs.Parts.{AreUsedParts};
ghost use Rattle.song_places.specs.declared.places.Place.{Place as AnyPlace};
ghost use Rattle.song_places.specs.Places.{IsFirst};
ghost use Rattle.song_places.specs.PartPlaces.{NeedsFeatureFor, NeedsFactFor, NeedsFor, IsPartPlace};
ghost use Rattle.song_places.specs.Search.{IsOneOf};

use crate::first_places::{first_fact_place, first_place};
use crate::places::Place;
use kept_lines::{Conditions, conditions};
use play_model::Options;
use player_memory::conditions::ROW_TONE;
use song_facts::Fact;
use song_model::{Feature, Song};
use usage::UsedParts;

/// The features in the order of their bits.
const FEATURES: [Feature; 24] = [
    Feature::Transpose,
    Feature::Repeat,
    Feature::PortaUp,
    Feature::PortaDown,
    Feature::TonePorta,
    Feature::TieNote,
    Feature::Vibrato,
    Feature::InstrumentVibrato,
    Feature::NoteDependent,
    Feature::SetAd,
    Feature::SetSr,
    Feature::SetWave,
    Feature::SetWavePointer,
    Feature::PulseTable,
    Feature::SetPulsePointer,
    Feature::FilterTable,
    Feature::SetFilterPointer,
    Feature::FilterControl,
    Feature::Cutoff,
    Feature::Volume,
    Feature::FunkTempo,
    Feature::SetTempo,
    Feature::WaveTable,
    Feature::WaveCommand,
];

/// The facts in the order of their numbers.
const FACTS: [Fact; 22] = [
    Fact::RowTone,
    Fact::RowSlide,
    Fact::RowOnce,
    Fact::FirstMask,
    Fact::Legato,
    Fact::NoHardRestart,
    Fact::WaveDelay,
    Fact::GateNote,
    Fact::NoteVibrato,
    Fact::VibratoDelay,
    Fact::NotePulse,
    Fact::NoteFilter,
    Fact::VoiceTempo,
    Fact::CommonTempo,
    Fact::FunkTurns,
    Fact::FunkChoice,
    Fact::OwnTimer,
    Fact::OwnWave,
    Fact::Subtunes,
    Fact::VoiceTwo,
    Fact::VoiceThree,
    Fact::FirstHolds,
];

/// What a song asks for that uses this feature alone.
fn feature_alone(feature: Feature) -> Conditions
    ensures { result.0 ≡ 2 ^ bit_of feature }
{
    Conditions(1 << u32::from(feature.bit()))
}

/// What a song asks for that has this fact alone.
fn fact_alone(fact: Fact) -> Conditions
    ensures { result.0 ≡ 2 ^ fact_condition fact }
{
    Conditions(1 << u32::from(ROW_TONE + fact.number()))
}

/// Whether a song that asks for these keeps a part.
fn keeps_part(asked: Conditions, part: u8) -> bool
    ensures { result ≡ keeps asked.0 no_options part }
{
    conditions(asked, Options::default()).hold(part)
}

/// The earlier of two places, of those that are there.
fn earlier(one: Option<Place>, other: Option<Place>) -> Option<Place>
    ensures first { IfSome result (IsFirst (IsOneOf one other)) }
    ensures none { IfNone result ((one ≡ None) × (other ≡ None)) }
{
    match (one, other) {
        (Some(place), Some(second)) => Some(place.min(second)),
        (Some(place), None) | (None, Some(place)) => Some(place),
        (None, None) => None,
    }
}

/// The first place that needs a feature which keeps a part.
fn feature_place(song: &Song, parts: &UsedParts, part: u8) -> Option<Place>
    requires { AreUsedParts song.now parts.now }
    ensures first { IfSome result (IsFirst (NeedsFeatureFor song.now part)) }
    ensures none { IfNone result ((place : AnyPlace) → ¬ NeedsFeatureFor song.now part place) }
{
    let mut first = None;
    for feature in &FEATURES {
        if keeps_part(feature_alone(*feature), part) {
            first = earlier(first, first_place(song, parts, *feature));
        }
    }
    first
}

/// The first place that gives the song a fact which keeps a part.
fn fact_place(song: &Song, parts: &UsedParts, part: u8) -> Option<Place>
    requires { AreUsedParts song.now parts.now }
    ensures first { IfSome result (IsFirst (NeedsFactFor song.now part)) }
    ensures none { IfNone result ((place : AnyPlace) → ¬ NeedsFactFor song.now part place) }
{
    let mut first = None;
    for fact in &FACTS {
        if keeps_part(fact_alone(*fact), part) {
            first = earlier(first, first_fact_place(song, parts, *fact));
        }
    }
    first
}

/// The first place of a song that needs a part of the player, 0 to 60: the earliest of the first places of the features
/// and facts that keep it. None where no place does, as with the parts of the options, 24 to 27.
pub fn part_place(song: &Song, parts: &UsedParts, part: u8) -> Option<Place>
    requires { AreUsedParts song.now parts.now }
    ensures first { IfSome result (IsPartPlace song.now part) }
    ensures none { IfNone result ((place : AnyPlace) → ¬ NeedsFor song.now part place) }
{
    earlier(
        feature_place(song, parts, part),
        fact_place(song, parts, part),
    )
}
