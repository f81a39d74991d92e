//! What a song makes use of, and why it can't be played where it can't.
//!
//! The layer's one contract: `usage` answers the parts that a song uses, the features that its player needs
//! and the facts that the song has, exactly where the song can be played, and else the first rule that it
//! breaks with its least place. It takes no memory, and its work is linear in the song. `heard_patterns` marks the
//! patterns that have something to play.
//!
//! It stands on `song_model` for the song, on `play_model` for what is used and what can be played, on
//! `song_facts` for which facts a song has, on `safe_states` for the law that the features name each case that
//! a frame takes, and on `base` for lemmas.
//! The packer and the command `check` stand on it.
#![tactic(auto)]

mod channels;
mod checks;
/// Facts about the definitions.
pub mod claims;
mod facts;
mod features;
mod found;
mod marks;
mod orders;
mod parts;
mod played;
mod pointers;
mod programs;
mod rows;
mod uses;
mod waves;

pub use channels::heard_patterns;
pub use parts::{UsedParts, usage};
pub use play_model::Unplayable;
