//! What a song asks of its player, which lines of the player are kept for that and for the options of a call, and with
//! which numbers a subtune begins.
//!
//! Its contract: what is asked for is the song's features and its facts; the set of conditions that is made has exactly
//! those that hold: of each feature and fact that is asked for, of each option that is on, and of what several features
//! or facts have in common where any of them is asked for. The numbers of a start are those of the definition.
//!
//! It makes no line. It stands on `song_facts` and `packed_form` for facts and songs, on `player_memory` for the
//! conditions, on `scope_lines` for sets of them, and on `player_text` for what the code of a beginning takes. See
//! `docs/player-blocks.md`.
#![tactic(auto)]

mod asking;
pub mod claims;
mod kept;
mod starts;

pub use asking::{asked, asked_by};
pub use kept::conditions;
pub use scope_lines::Conditions;
pub use starts::start_of;
