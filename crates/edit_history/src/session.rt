//! A song, the edits that stand in it, and those that can be redone.

ghost use Rattle.std.specs.Prelude.{◌≡◌, ◌+◌, ◌≤◌, ◌↔◌, [], vec_len, vec_capacity, Ok, Err, Some};
ghost use Rattle.std.specs.Prelude.{IsErr, IsErrOf, IfOk, OnOk, OnErr};
ghost use Rattle.edit_ops.specs.Edits.{edited};
ghost use Rattle.edit_ops.specs.Back.{back};
ghost use Rattle.edit_history.specs.History.{begun, song_of, after_edit, after_undo, after_redo};

use crate::done::Done;
use crate::{NothingToRedo, NothingToUndo};
use edit_ops::{Edit, EditFault, Inverse, apply, revert};
use song_model::Song;
use std::alloc::{AllocError, Global};
use std::marker::Model;

/// A song that is edited. Contracts see its history: the song that it began with, the edits that stand and those that
/// can be redone.
#[derive(Drop)]
pub struct Session {
    song: Song,
    standing: Vec<Done>,
    undone: Vec<Done>,
}

impl Model for Session {
    ghost use Rattle.edit_history.specs.History.{History};
    ghost use Rattle.edit_history.specs.Kept.{history_kept, IsKept};

    ghost Value = { History };

    ghost view = { λ session. history_kept session.song session.standing.items session.undone.items };

    ghost invariant = { λ session. IsKept session.song session.standing session.undone };
}

/// Makes room for one edit more in the list of those that stand, and for all of them in the other.
fn make_room(standing: &mut Vec<Done>, undone: &mut Vec<Done>) -> Result<(), AllocError>
    ensures stand { standing.new.items ≡ standing.old.items }
    ensures undone { undone.new.items ≡ undone.old.items }
    ensures standing_room { OnOk result (vec_len standing.new + 1 ≤ vec_capacity standing.new) }
    ensures undone_room { OnOk result (vec_len standing.new + 1 ≤ vec_capacity undone.new) }
    ensures standing_grows { vec_capacity standing.old ≤ vec_capacity standing.new }
    ensures undone_grows { vec_capacity undone.old ≤ vec_capacity undone.new }
{
    standing.reserve(1)?;
    undone.reserve(standing.len() + 1)
}

/// Does an edit that isn't refused, once there is room to keep it.
///
/// # Errors
///
/// As `apply` has them. The song is as before.
fn apply_in_room(
    song: &mut Song,
    standing: &mut Vec<Done>,
    undone: &mut Vec<Done>,
    edit: &Edit,
) -> Result<Inverse, EditFault>
    ensures done { OnOk result (edited song.old edit.now ≡ Ok song.new) }
    ensures back { IfOk result (λ inverse. back song.new inverse ≡ Some song.old) }
    ensures no_such_place { IsErrOf result EditFault.NoSuchPlace
        ↔ (edited song.old edit.now ≡ Err EditFault.NoSuchPlace) }
    ensures out_of_limit { IsErrOf result EditFault.OutOfLimit
        ↔ (edited song.old edit.now ≡ Err EditFault.OutOfLimit) }
    ensures bad_value { IsErrOf result EditFault.BadValue
        ↔ (edited song.old edit.now ≡ Err EditFault.BadValue) }
    ensures err { OnErr result (song.new ≡ song.old) }
    ensures standing { standing.new.items ≡ standing.old.items }
    ensures undone { undone.new.items ≡ undone.old.items }
    ensures standing_room { OnOk result (vec_len standing.new + 1 ≤ vec_capacity standing.new) }
    ensures undone_room { OnOk result (vec_len standing.new + 1 ≤ vec_capacity undone.new) }
    ensures standing_grows { vec_capacity standing.old ≤ vec_capacity standing.new }
    ensures undone_grows { vec_capacity undone.old ≤ vec_capacity undone.new }
{
    if let Some(fault) = edit.refusal(song) {
        return Err(fault);
    }
    if make_room(standing, undone).is_err() {
        return Err(EditFault::NoMemory);
    }
    apply(*standing.allocator(), song, edit)
}

impl Session {
    /// A session that begins with this song.
    pub fn new(alloc: Global, song: Song) -> Session
        ensures { result ≡ begun song }
    {
        Session {
            song,
            standing: Vec::new(alloc),
            undone: Vec::new(alloc),
        }
    }

    /// The song as it is now.
    pub fn song(&self) -> &Song
        ensures { song_of self.now ≡ Ok result.now }
    {
        &self.song
    }

    /// The song as it is now. What could be undone and redone is let go.
    pub fn into_song(self) -> Song
        ensures { song_of self ≡ Ok result }
    {
        self.song
    }

    /// Does an edit. What could be redone is let go.
    ///
    /// # Errors
    ///
    /// `NoSuchPlace`, `OutOfLimit`, `BadValue`: the first of these that holds of the edit; then out of memory. The
    /// session is as before.
    pub fn edit(&mut self, edit: &Edit) -> Result<(), EditFault>
        ensures done { OnOk result (after_edit self.old edit.now ≡ Ok self.new) }
        ensures no_such_place { IsErrOf result EditFault.NoSuchPlace
            ↔ (after_edit self.old edit.now ≡ Err EditFault.NoSuchPlace) }
        ensures out_of_limit { IsErrOf result EditFault.OutOfLimit
            ↔ (after_edit self.old edit.now ≡ Err EditFault.OutOfLimit) }
        ensures bad_value { IsErrOf result EditFault.BadValue
            ↔ (after_edit self.old edit.now ≡ Err EditFault.BadValue) }
        ensures err { OnErr result (self.new ≡ self.old) }
    {
        match apply_in_room(&mut self.song, &mut self.standing, &mut self.undone, edit) {
            Err(fault) => Err(fault),
            Ok(inverse) => {
                self.undone.clear();
                self.standing.push_reserved(Done {
                    edit: *edit,
                    inverse,
                });
                Ok(())
            }
        }
    }

    /// Takes the last edit that stands back. It takes no memory.
    ///
    /// # Errors
    ///
    /// No edit stands. The session is as before.
    pub fn undo(&mut self) -> Result<(), NothingToUndo>
        ensures done { OnOk result (after_undo self.old ≡ Some self.new) }
        ensures nothing { IsErr result ↔ (self.old.standing ≡ []) }
        ensures err { OnErr result (self.new ≡ self.old) }
    {
        let Some(Done { edit, inverse }) = self.standing.pop() else {
            return Err(NothingToUndo);
        };
        let inverse = revert(&mut self.song, inverse);
        self.undone.push_reserved(Done { edit, inverse });
        Ok(())
    }

    /// Does the edit that was undone last again. It takes no memory.
    ///
    /// # Errors
    ///
    /// Nothing was undone since the last edit, or all of it was redone. The session is as before.
    pub fn redo(&mut self) -> Result<(), NothingToRedo>
        ensures done { OnOk result (after_redo self.old ≡ Some self.new) }
        ensures nothing { IsErr result ↔ (self.old.undone ≡ []) }
        ensures err { OnErr result (self.new ≡ self.old) }
    {
        let Some(Done { edit, inverse }) = self.undone.pop() else {
            return Err(NothingToRedo);
        };
        let inverse = revert(&mut self.song, inverse);
        self.standing.push_reserved(Done { edit, inverse });
        Ok(())
    }
}
