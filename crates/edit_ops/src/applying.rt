//! Which edits are refused, and what the others do.

ghost use Rattle.std.specs.Prelude.{◌≡◌, ◌↔◌, false, Ok, Err, Some, IsErrOf, IfOk, OnOk, OnErr};
ghost use Rattle.std.specs.Result.{result_err};
ghost use Rattle.edit_ops.specs.Edits.{lacks_place, is_over, is_bad, changed, edited};
ghost use Rattle.edit_ops.specs.Back.{back};
ghost use Rattle.edit_ops.specs.Does.{Does};

use crate::instruments::{is_no_field, is_no_instrument, set_instrument, set_instrument_name};
use crate::orders::{
    delete_order, has_entries, insert_order, is_endmark, lacks_entry, lacks_entry_gap, lacks_order,
    lacks_subtune, set_order, set_restart,
};
use crate::others::{
    add_subtune, has_subtunes, is_no_count, lacks_text, remove_subtune, set_pattern_count, set_text,
};
use crate::patterns::{
    copy_pattern, delete_row, has_rows, insert_row, is_no_length, is_row, lacks_pattern, lacks_row,
    lacks_row_gap, set_length, set_row, some_leaves_range, transpose_pattern,
};
use crate::tables::{
    delete_table, has_table_rows, insert_table, lacks_table_gap, lacks_table_row, set_table,
};
use crate::{Edit, EditFault, Inverse};
use song_model::{NoMemory, Song};
use std::alloc::Global;

/// Whether what an edit speaks of isn't there.
#[tactic(auto, unfolding(crate::specs::Edits::lacks_place))]
fn lacks_place(song: &Song, edit: &Edit) -> bool
    ensures { result ≡ lacks_place song.now edit.now }
{
    match *edit {
        Edit::SetRow { pattern, place, .. } | Edit::DeleteRow { pattern, place } => {
            lacks_row(song, pattern, place)
        }
        Edit::InsertRow { pattern, place, .. } => lacks_row_gap(song, pattern, place),
        Edit::SetLength { pattern, .. } | Edit::TransposePattern { pattern, .. } => {
            lacks_pattern(song, pattern)
        }
        Edit::CopyPattern { from, to } => lacks_pattern(song, from) || lacks_pattern(song, to),
        Edit::SetOrder {
            subtune,
            channel,
            place,
            ..
        }
        | Edit::DeleteOrder {
            subtune,
            channel,
            place,
        } => lacks_entry(song, subtune, channel, place),
        Edit::InsertOrder {
            subtune,
            channel,
            place,
            ..
        } => lacks_entry_gap(song, subtune, channel, place),
        Edit::SetRestart {
            subtune,
            channel,
            ..
        } => lacks_order(song, subtune, channel),
        Edit::SetInstrument { instrument, .. } | Edit::SetInstrumentName { instrument, .. } => {
            is_no_instrument(instrument)
        }
        Edit::SetTable { table, number, .. } | Edit::DeleteTable { table, number } => {
            lacks_table_row(song, table, number)
        }
        Edit::InsertTable { table, number, .. } => lacks_table_gap(song, table, number),
        Edit::SetText { which, .. } => lacks_text(which),
        Edit::RemoveSubtune { subtune } => lacks_subtune(song, subtune),
        Edit::AddSubtune | Edit::SetPatternCount { .. } => false,
    }
}

/// Whether a list would leave its limits.
#[tactic(auto, unfolding(crate::specs::Edits::lacks_place, crate::specs::Edits::is_over))]
fn is_over(song: &Song, edit: &Edit) -> bool
    requires { lacks_place song.now edit.now ≡ false }
    ensures { result ≡ is_over song.now edit.now }
{
    match *edit {
        Edit::InsertRow { pattern, .. } => has_rows(song, pattern, 128),
        Edit::DeleteRow { pattern, .. } => has_rows(song, pattern, 1),
        Edit::SetLength { length, .. } => is_no_length(length),
        Edit::InsertOrder {
            subtune,
            channel,
            ..
        } => has_entries(song, subtune, channel, 254),
        Edit::InsertTable { table, .. } => has_table_rows(song, table, 255),
        Edit::AddSubtune => has_subtunes(song, 32),
        Edit::SetPatternCount { count } => is_no_count(count),
        _ => false,
    }
}

/// Whether a value is out of its range.
#[tactic(auto, unfolding(crate::specs::Edits::is_bad))]
fn is_bad(song: &Song, edit: &Edit) -> bool
    ensures { result ≡ is_bad song.now edit.now }
{
    match *edit {
        Edit::SetRow { row, .. } | Edit::InsertRow { row, .. } => !is_row(row),
        Edit::TransposePattern { pattern, by } => some_leaves_range(song, pattern, by),
        Edit::SetOrder { entry, .. } | Edit::InsertOrder { entry, .. } => is_endmark(entry),
        Edit::SetInstrument { field, .. } => is_no_field(field),
        _ => false,
    }
}

/// Does an edit that isn't refused.
///
/// # Errors
///
/// Out of memory. The song is as before.
#[tactic(auto, unfolding(crate::proofs::Doing::reading_the_table))]
fn change(alloc: Global, song: &mut Song, edit: &Edit) -> Result<Inverse, NoMemory>
    requires place { lacks_place song.old edit.now ≡ false }
    requires limit { is_over song.old edit.now ≡ false }
    requires value { is_bad song.old edit.now ≡ false }
    ensures { Does result song.old song.new (changed song.old edit.now) }
{
    match *edit {
        Edit::SetRow {
            pattern,
            place,
            row,
        } => set_row(alloc, song, pattern, place, row),
        Edit::InsertRow {
            pattern,
            place,
            row,
        } => insert_row(alloc, song, pattern, place, row),
        Edit::DeleteRow { pattern, place } => delete_row(alloc, song, pattern, place),
        Edit::SetLength { pattern, length } => set_length(alloc, song, pattern, length),
        Edit::CopyPattern { from, to } => copy_pattern(alloc, song, from, to),
        Edit::TransposePattern { pattern, by } => transpose_pattern(alloc, song, pattern, by),
        Edit::SetOrder {
            subtune,
            channel,
            place,
            entry,
        } => set_order(alloc, song, subtune, channel, place, entry),
        Edit::InsertOrder {
            subtune,
            channel,
            place,
            entry,
        } => insert_order(alloc, song, subtune, channel, place, entry),
        Edit::DeleteOrder {
            subtune,
            channel,
            place,
        } => delete_order(alloc, song, subtune, channel, place),
        Edit::SetRestart {
            subtune,
            channel,
            restart,
        } => set_restart(alloc, song, subtune, channel, restart),
        Edit::SetInstrument {
            instrument,
            field,
            value,
        } => set_instrument(alloc, song, instrument, field, value),
        Edit::SetInstrumentName { instrument, name } => {
            set_instrument_name(alloc, song, instrument, name)
        }
        Edit::SetTable { table, number, row } => set_table(alloc, song, table, number, row),
        Edit::InsertTable { table, number, row } => insert_table(alloc, song, table, number, row),
        Edit::DeleteTable { table, number } => delete_table(alloc, song, table, number),
        Edit::SetText { which, text } => set_text(song, which, text),
        Edit::AddSubtune => add_subtune(alloc, song),
        Edit::RemoveSubtune { subtune } => remove_subtune(alloc, song, subtune),
        Edit::SetPatternCount { count } => set_pattern_count(alloc, song, count),
    }
}

impl Edit {
    /// Why this edit of a song can't be done: `NoSuchPlace`, `OutOfLimit` or `BadValue`, the first of these that holds;
    /// none where it can. It takes no memory.
    #[tactic(auto, unfolding(crate::specs::Edits::edited))]
    pub fn refusal(&self, song: &Song) -> Option<EditFault>
        ensures { result ≡ result_err (edited song.now self.now) }
    {
        if lacks_place(song, self) {
            return Some(EditFault::NoSuchPlace);
        }
        if is_over(song, self) {
            return Some(EditFault::OutOfLimit);
        }
        if is_bad(song, self) {
            return Some(EditFault::BadValue);
        }
        None
    }
}

/// Does an edit, and answers its inverse, by which `revert` leads back.
///
/// It copies the part of the song that it changes. An insert or delete of a table's row copies the tables, the
/// instruments and the patterns with a pointer that moves. Where subtunes or patterns come or go, the others are moved.
///
/// # Errors
///
/// `NoSuchPlace`, `OutOfLimit`, `BadValue`: the first of these that holds of the edit, before memory is asked for;
/// then out of memory. The song is as before.
#[tactic(auto, unfolding(crate::specs::Edits::edited))]
pub fn apply(alloc: Global, song: &mut Song, edit: &Edit) -> Result<Inverse, EditFault>
    ensures done { OnOk result (edited song.old edit.now ≡ Ok song.new) }
    ensures back { IfOk result (λ inverse. back song.new inverse ≡ Some song.old) }
    ensures no_such_place { IsErrOf result EditFault.NoSuchPlace
        ↔ (edited song.old edit.now ≡ Err EditFault.NoSuchPlace) }
    ensures out_of_limit { IsErrOf result EditFault.OutOfLimit
        ↔ (edited song.old edit.now ≡ Err EditFault.OutOfLimit) }
    ensures bad_value { IsErrOf result EditFault.BadValue
        ↔ (edited song.old edit.now ≡ Err EditFault.BadValue) }
    ensures err { OnErr result (song.new ≡ song.old) }
{
    if let Some(fault) = edit.refusal(song) {
        return Err(fault);
    }
    match change(alloc, song, edit) {
        Ok(inverse) => Ok(inverse),
        Err(NoMemory) => Err(EditFault::NoMemory),
    }
}
