//! The player's memory: what its bytes are, and what of a song and of its state they hold.
//!
//! The variables are a table (`variables`), whose rows say what each byte holds; the definitions read it. Its one
//! contract: each variable has one row and one owner, where they begin as a subtune does each voice plays from the
//! start, and what holds a voice's state or the lists of a song, or is left as it was, is worked by hand.
//!
//! It stands on `play_model` for the state, on `song_model` and `packed_form` for a song's lists, and on `scopes` for
//! the memory and the layout of blocks. See `docs/player-blocks.md`.
#![tactic(auto)]

pub mod claims;
pub mod conditions;
pub mod labels;
mod listed;
pub mod variables;

pub use listed::{
    DELAY_BYTE, FIRST_WAVE_BYTE, TIMER_BYTE, bytes_read, gap_size, has_envelope_from,
    has_gate_from, is_read, shared_size, unlisted_size, unread_size,
};
