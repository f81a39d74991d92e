//! An edit that was done, and what there may be none of.

use edit_ops::{Edit, Inverse};

/// An edit with the inverse that leads over it: back where the edit stands, forth where it was undone.
#[derive(Drop)]
pub(crate) struct Done {
    /// The edit.
    pub(crate) edit: Edit,
    /// What the song has in place of what it had, or would have, on the other side of the edit.
    pub(crate) inverse: Inverse,
}

/// No edit stands.
#[derive(Clone, Copy, Debug, PartialEq, Eq)]
pub struct NothingToUndo;

/// No edit was undone since the last one, or all of those were done again.
#[derive(Clone, Copy, Debug, PartialEq, Eq)]
pub struct NothingToRedo;
