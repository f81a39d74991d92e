//! The range of the frequency table that a song asks for.

ghost use Rattle.std.specs.Prelude.{◌≡◌, ◌+◌, ◌≤◌};
ghost use Rattle.song_model.specs.declared.features.Feature.TheVariants.{NoteDependent};
ghost use Rattle.play_model.specs.Features.{HasFeature};
ghost use Rattle.asked_numbers.specs.Numbers.{IsSoundedNumber};
ghost use Rattle.asked_numbers.specs.Range.{IsNumberRange};
ghost use Rattle.usage.specs.Parts.{AreUsedParts};
ghost use Rattle.number_range.specs.Sets.{IsSetOf};

use crate::numbers::{has_feature, sounded_numbers};
use crate::sets::NumberSet;
use asked_numbers::NumberRange;
use song_model::{Feature, Song};
use usage::UsedParts;

/// The range from one number to another.
fn range_between(least: u8, greatest: u8) -> NumberRange
    requires order { least ≤ greatest }
    requires small { greatest ≤ 128 }
    ensures first { result.first ≡ least }
    ensures end { result.first + result.count ≡ greatest + 1 }
{
    NumberRange {
        first: least,
        count: greatest + 1 - least,
    }
}

/// The range of a song that takes speeds from half tones, with the numbers as which its notes sound: from 0 to the
/// number after the last.
fn half_tone_range(song: &Song, numbers: NumberSet) -> NumberRange
    requires numbers { IsSetOf (IsSoundedNumber song.now) numbers }
    requires depends { HasFeature song.now NoteDependent }
    ensures { IsNumberRange song.now result }
{
    // Named in the contract alone.
    let _song = song;
    let last = NumberSet::only(0).union(numbers).greatest();
    range_between(0, last + 1)
}

/// The range of another song, with the numbers as which its notes sound.
fn sounded_range(song: &Song, numbers: NumberSet) -> NumberRange
    requires numbers { IsSetOf (IsSoundedNumber song.now) numbers }
    requires plain { ¬ HasFeature song.now NoteDependent }
    ensures { IsNumberRange song.now result }
{
    // Named in the contract alone.
    let _song = song;
    if numbers.has_some() {
        range_between(numbers.least(), numbers.greatest())
    } else {
        NumberRange { first: 0, count: 0 }
    }
}

/// The range of the frequency table that a song asks for, with what the song uses: the numbers as which its notes
/// sound, and the ends of half tones where speeds are taken from these. It takes no memory, and its work is linear in
/// the song: each pattern's rows and each orderlist's entries are looked at once.
pub fn number_range(song: &Song, parts: &UsedParts) -> NumberRange
    requires { AreUsedParts song.now parts.now }
    ensures { IsNumberRange song.now result }
{
    let numbers = sounded_numbers(song, parts);
    if has_feature(song, parts, Feature::NoteDependent) {
        half_tone_range(song, numbers)
    } else {
        sounded_range(song, numbers)
    }
}
