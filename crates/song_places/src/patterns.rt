//! The first place in the patterns.

ghost use Rattle.std.specs.Prelude.{◌≡◌, ℕ, ◌≤◌, [], ◌∷◌, Some, IfSome, IfNone, slice_get, length};
ghost use Rattle.play_model.specs.Used.{IsUsedPattern};
ghost use Rattle.usage.specs.Marks.{AreMarks};
ghost use Rattle.song_places.specs.Search.{meant, IsFirstUnder, IsNowhereUnder};

use crate::needs::Wanted;
use crate::places::Place;
use song_model::{Pattern, Song};

/// The first row of a used pattern that is wanted.
fn first_row(song: &Song, wanted: Wanted, number: u8, pattern: &Pattern) -> Option<Place>
    requires used { IsUsedPattern song.now number }
    requires is { slice_get song.now.patterns number ≡ Some pattern.now }
    ensures found { IfSome result
        (IsFirstUnder song.now (meant song.now wanted) (2 ∷ number ∷ [])) }
    ensures none { IfNone result
        (IsNowhereUnder song.now (meant song.now wanted) (2 ∷ number ∷ [])) }
{
    let rows = pattern.as_slice();
    for (i, row) in rows.iter().enumerate() {
        if wanted.is_row(song, *row) {
            return Some(Place::InPattern {
                pattern: number,
                row: i as u8,
            });
        }
    }
    None
}

/// The first row of a pattern that is wanted, if the pattern is used.
fn first_if_used(
    song: &Song,
    wanted: Wanted,
    used: &[bool; 208],
    number: u8,
    pattern: &Pattern,
) -> Option<Place>
    requires used { AreMarks (IsUsedPattern song.now) used.now }
    requires is { slice_get song.now.patterns number ≡ Some pattern.now }
    requires few { length song.now.patterns ≤ 208 }
    ensures found { IfSome result
        (IsFirstUnder song.now (meant song.now wanted) (2 ∷ number ∷ [])) }
    ensures none { IfNone result
        (IsNowhereUnder song.now (meant song.now wanted) (2 ∷ number ∷ [])) }
{
    if used[usize::from(number)] {
        first_row(song, wanted, number, pattern)
    } else {
        None
    }
}

/// The first row of the used patterns that is wanted.
pub(crate) fn first_in_patterns(song: &Song, wanted: Wanted, used: &[bool; 208]) -> Option<Place>
    requires { AreMarks (IsUsedPattern song.now) used.now }
    ensures found { IfSome result (IsFirstUnder song.now (meant song.now wanted) (2 ∷ [])) }
    ensures none { IfNone result (IsNowhereUnder song.now (meant song.now wanted) (2 ∷ [])) }
{
    let patterns = song.patterns.as_slice();
    for (i, pattern) in patterns.iter().enumerate() {
        if let Some(place) = first_if_used(song, wanted, used, i as u8, pattern) {
            return Some(place);
        }
    }
    None
}
