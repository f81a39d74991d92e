//! The player's parts, where a song doesn't use them: their lines do nothing.
//!
//! A part is what stands under a condition. Its law: where a memory holds a state that keeps clear of the part, its
//! lines come to their own end, and leave each byte, X, and the registers that are named. What no clear state comes to
//! stands behind a scope that is left from the lines of its own features or facts alone. And as a whole, from what a
//! frame plays: whatever is kept besides what it uses, it plays the same, so what isn't used can be left out. A byte
//! that is kept under a condition alone is stored by lines that change nothing else, and read under that condition
//! alone.
//!
//! It has no code. It stands on `scopes` for what lines mean, on `player_memory` for memories that hold a state, on
//! `player_text` for the blocks, on `song_facts` and `fetch_code` for what instruments hold, and on `frame_code` for a
//! frame. Nothing stands on it: the blocks' own theorems
//! speak of any conditions. See `docs/player-blocks.md`.
#![tactic(auto)]

pub mod claims;
