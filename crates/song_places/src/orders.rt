//! The first place in the orderlists.

ghost use Rattle.std.specs.Prelude.{◌≡◌, ℕ, ◌-◌, [], ◌∷◌, Some, IfSome, IfNone, slice_get};
ghost use Rattle.song_model.specs.LookUp.{IsNumbered};
ghost use Rattle.play_model.specs.Playable.{HasOrder};
ghost use Rattle.song_places.specs.Search.{meant, AreHeardFor, IsKnown, IsFirstUnder, IsNowhereUnder};

use crate::needs::{Known, Wanted};
use crate::places::Place;
use song_facts::Fact;
use song_model::{Order, Song, Subtune};
use usage::heard_patterns;

/// The first place in an orderlist of a subtune of which this is known.
fn first_in_order(
    song: &Song,
    wanted: Wanted,
    subtune: u8,
    known: &Known,
    channel: u8,
    order: &Order,
) -> Option<Place>
    requires has { HasOrder song.now subtune channel order.now }
    requires known { IsKnown song.now wanted subtune known.now }
    ensures found { IfSome result
        (IsFirstUnder song.now (meant song.now wanted) (1 ∷ subtune ∷ channel ∷ [])) }
    ensures none { IfNone result
        (IsNowhereUnder song.now (meant song.now wanted) (1 ∷ subtune ∷ channel ∷ [])) }
{
    // Named in the contract alone.
    let _song = song;
    let entries = order.entries.as_slice();
    for (i, byte) in entries.iter().enumerate() {
        if wanted.is_byte(known, channel, *byte) {
            return Some(Place::InOrder {
                subtune,
                channel,
                place: i as u8,
            });
        }
    }
    None
}

/// The first place in a subtune of which this is known, if it can be played.
fn first_in_subtune(
    song: &Song,
    wanted: Wanted,
    number: u8,
    known: &Known,
    subtune: &Subtune,
) -> Option<Place>
    requires stored { IsNumbered song.now.subtunes number }
    requires is { slice_get song.now.subtunes (number - 1) ≡ Some subtune.now }
    requires known { IsKnown song.now wanted number known.now }
    ensures found { IfSome result
        (IsFirstUnder song.now (meant song.now wanted) (1 ∷ number ∷ [])) }
    ensures none { IfNone result
        (IsNowhereUnder song.now (meant song.now wanted) (1 ∷ number ∷ [])) }
{
    if !subtune.is_playable() {
        return None;
    }
    if let Some(place) = first_in_order(song, wanted, number, known, 1, &subtune.one) {
        return Some(place);
    }
    if let Some(place) = first_in_order(song, wanted, number, known, 2, &subtune.two) {
        return Some(place);
    }
    first_in_order(song, wanted, number, known, 3, &subtune.three)
}

/// A mark for each pattern that has a row to play, where such patterns are looked for.
fn heard_for(song: &Song, wanted: Wanted) -> [bool; 256]
    ensures { AreHeardFor song.now wanted result }
{
    match wanted {
        Wanted::OfFact(Fact::VoiceTwo | Fact::VoiceThree) => heard_patterns(song),
        _ => [false; 256],
    }
}

/// The first place in the orderlists of playable subtunes.
pub(crate) fn first_in_orders(song: &Song, wanted: Wanted) -> Option<Place>
    ensures found { IfSome result (IsFirstUnder song.now (meant song.now wanted) (1 ∷ [])) }
    ensures none { IfNone result (IsNowhereUnder song.now (meant song.now wanted) (1 ∷ [])) }
{
    let subtunes = song.subtunes.as_slice();
    let mut known = Known {
        behind: false,
        heard: heard_for(song, wanted),
    };
    for (i, subtune) in subtunes.iter().enumerate() {
        if let Some(place) = first_in_subtune(song, wanted, i as u8 + 1, &known, subtune) {
            return Some(place);
        }
        if subtune.is_playable() {
            known.behind = true;
        }
    }
    None
}
