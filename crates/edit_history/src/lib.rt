//! Edits of a song with undo and redo.
//!
//! The layer's one contract: each call of a session is a step of a fold over edits. An edit joins those that stand and
//! lets go what could be redone; undo moves the last one that stands to those that can be redone, and redo moves the
//! one undone last back. The song is what the standing edits give, applied in order to the song that the session began
//! with. A call that is refused leaves the session as it was, and undo and redo take no memory.
//! The definitions say it by lists of edits that are applied from the start; the code keeps what each edit has
//! replaced, and exchanges that.
//! It stands on `edit_ops`. Scripts of edits stand on it.
#![tactic(auto)]

/// Facts about the definitions.
pub mod claims;
mod done;
mod session;

pub use done::{NothingToRedo, NothingToUndo};
pub use session::Session;
