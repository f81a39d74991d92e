//! What the lines of a script say.

use base::Items;
use edit_ops::Edit;

/// What a line says is to be done.
#[derive(Clone, Copy, Debug)]
pub enum Action {
    /// An edit of the song.
    Edit(Edit),
    /// Takes the last edit that stands back.
    Undo,
    /// Does the edit again that was taken back last.
    Redo,
}

/// What a line says, and its number. The lines of a script are counted from 1.
#[derive(Clone, Copy, Debug)]
pub struct Command {
    pub line: u32,
    pub action: Action,
}

/// The commands of a script, in the order of its lines.
pub type Script = Items<Command>;
