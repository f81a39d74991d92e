//! The first place that needs a feature or gives a fact.

ghost use Rattle.std.specs.Prelude.{◌≡◌, ◌↔◌, IfSome, IfNone, IsSome, IsTrue, [], Some};
ghost use Rattle.song_model.specs.Feature.{bit_of};
ghost use Rattle.play_model.specs.Features.{HasFeature, AreFeatures};
ghost use Rattle.song_facts.specs.Facts.{HasFact};
ghost use Rattle.usage.specs.Parts.{AreUsedParts};
ghost use Rattle.song_places.specs.declared.places.Place.{Place as AnyPlace};
ghost use Rattle.song_places.specs.Places.{IsFirstPlace, IsFirstFactPlace};
ghost use Rattle.song_places.specs.Search.{meant, IsFirstUnder, IsNowhereUnder};

use crate::instruments::first_instrument;
use crate::needs::Wanted;
use crate::orders::first_in_orders;
use crate::patterns::first_in_patterns;
use crate::places::Place;
use crate::wave_rows::first_wave_row;
use song_facts::Fact;
use song_model::{Feature, Song};
use usage::UsedParts;

/// The first place of what is wanted.
fn first_wanted(song: &Song, parts: &UsedParts, wanted: Wanted) -> Option<Place>
    requires { AreUsedParts song.now parts.now }
    ensures found { IfSome result (IsFirstUnder song.now (meant song.now wanted) []) }
    ensures none { IfNone result (IsNowhereUnder song.now (meant song.now wanted) []) }
{
    if let Some(place) = first_in_orders(song, wanted) {
        return Some(place);
    }
    if let Some(place) = first_in_patterns(song, wanted, &parts.patterns) {
        return Some(place);
    }
    if let Some(place) = first_instrument(song, wanted, &parts.instruments) {
        return Some(place);
    }
    first_wave_row(song, wanted, &parts.wave)
}

/// Whether a song uses a feature.
fn is_used(song: &Song, parts: &UsedParts, feature: Feature) -> bool
    requires { AreUsedParts song.now parts.now }
    ensures { IsTrue result ↔ HasFeature song.now feature }
{
    // Named in the contract alone.
    let _song = song;
    parts.features.0 & (1 << u32::from(feature.bit())) != 0
}

/// The first place of a song that needs a feature, with what the song uses: in the orderlists, then in the used
/// patterns in the order of their numbers, then in the used instruments, then in the rows of the wave table that
/// programs come to; none where the song doesn't use the feature. It takes no memory, and its work is linear in the song.
pub fn first_place(song: &Song, parts: &UsedParts, feature: Feature) -> Option<Place>
    requires { AreUsedParts song.now parts.now }
    ensures first { (place : AnyPlace) → (result ≡ Some place) ↔ IsFirstPlace song.now feature place }
    ensures used { IsSome result ↔ HasFeature song.now feature }
{
    if !is_used(song, parts, feature) {
        return None;
    }
    first_wanted(song, parts, Wanted::of(feature))
}

/// Whether a song has a fact.
fn is_had(song: &Song, parts: &UsedParts, fact: Fact) -> bool
    requires { AreUsedParts song.now parts.now }
    ensures { IsTrue result ↔ HasFact song.now fact }
{
    // Named in the contract alone.
    let _song = song;
    parts.facts.has(fact)
}

/// The first place of a song that gives it a fact, in the same order; none where the song hasn't the fact.
pub fn first_fact_place(song: &Song, parts: &UsedParts, fact: Fact) -> Option<Place>
    requires { AreUsedParts song.now parts.now }
    ensures first { (place : AnyPlace) → (result ≡ Some place) ↔ IsFirstFactPlace song.now fact place }
    ensures had { IsSome result ↔ HasFact song.now fact }
{
    if !is_had(song, parts, fact) {
        return None;
    }
    first_wanted(song, parts, Wanted::OfFact(fact))
}
