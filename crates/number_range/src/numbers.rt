//! The numbers as which the song's notes sound.

ghost use Rattle.std.specs.Prelude.{◌↔◌, IsTrue};
ghost use Rattle.song_model.specs.declared.tables.TableName.TheVariants.{Wave};
ghost use Rattle.play_model.specs.Reached.{IsReached};
ghost use Rattle.play_model.specs.Features.{HasFeature};
ghost use Rattle.asked_numbers.specs.Numbers.{AsksBeforeNotes, SlidesToNote, IsSoundedNumber};
ghost use Rattle.usage.specs.Marks.{AreMarks};
ghost use Rattle.usage.specs.Parts.{AreUsedParts};
ghost use Rattle.number_range.specs.Sets.{IsSetOf};
ghost use Rattle.number_range.specs.Notes.{IsSoundingWithin};
ghost use Rattle.number_range.specs.Numbers.{IsOwnNumber, IsSlidTo};

use crate::orders::played_notes;
use crate::sets::NumberSet;
use crate::sides::sides;
use song_model::{Feature, Song};
use usage::UsedParts;

/// Whether the song uses a feature.
pub(crate) fn has_feature(song: &Song, parts: &UsedParts, feature: Feature) -> bool
    requires { AreUsedParts song.now parts.now }
    ensures { IsTrue result ↔ HasFeature song.now feature }
{
    // Named in the contract alone.
    let _song = song;
    parts.features.0 & (1 << u32::from(feature.bit())) != 0
}

/// Whether a command of a row asks for the note that a voice begins with.
fn asks_before_notes(song: &Song, parts: &UsedParts) -> bool
    requires { AreUsedParts song.now parts.now }
    ensures { IsTrue result ↔ AsksBeforeNotes song.now }
{
    parts.facts.row_tone || has_feature(song, parts, Feature::SetWavePointer)
}

/// Whether command 3, of a row or of the wave table, slides to notes.
fn slides_to_note(song: &Song, parts: &UsedParts) -> bool
    requires { AreUsedParts song.now parts.now }
    ensures { IsTrue result ↔ SlidesToNote song.now }
{
    has_feature(song, parts, Feature::TonePorta) || has_feature(song, parts, Feature::TieNote)
}

/// The notes that may sound, modulo 128.
fn sounding_notes(song: &Song, parts: &UsedParts) -> NumberSet
    requires { AreUsedParts song.now parts.now }
    ensures { IsSetOf (IsSoundingWithin song.now) result }
{
    let played = played_notes(song);
    if asks_before_notes(song, parts) {
        played.union(NumberSet::only(0))
    } else {
        played
    }
}

/// The numbers of their own that rows of the wave table set, if there are notes.
fn own_numbers(song: &Song, wave: &[bool; 256], notes: NumberSet) -> NumberSet
    requires { AreMarks (IsReached song.now Wave) wave.now }
    ensures { IsSetOf (IsOwnNumber song.now notes) result }
{
    if notes.has_some() {
        sides(song, wave, true)
    } else {
        NumberSet::none()
    }
}

/// The notes themselves, if command 3 slides to them.
fn slid_to(song: &Song, parts: &UsedParts, notes: NumberSet) -> NumberSet
    requires { AreUsedParts song.now parts.now }
    ensures { IsSetOf (IsSlidTo song.now notes) result }
{
    if slides_to_note(song, parts) {
        notes
    } else {
        NumberSet::none()
    }
}

/// The numbers as which notes sound: by the wave table, and by command 3.
pub(crate) fn sounded_numbers(song: &Song, parts: &UsedParts) -> NumberSet
    requires { AreUsedParts song.now parts.now }
    ensures { IsSetOf (IsSoundedNumber song.now) result }
{
    let notes = sounding_notes(song, parts);
    let added = notes.plus(sides(song, &parts.wave, false));
    let own = own_numbers(song, &parts.wave, notes);
    added.union(own).union(slid_to(song, parts, notes))
}
