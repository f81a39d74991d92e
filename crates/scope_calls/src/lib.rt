//! Entrances to lowered blocks of scopes: their lines, and what a call of them does.
//!
//! An entrance is `CLD` in front of a block's lines; then, where it has voices, another block's lines, which are done
//! once for each of three voices with 7 times its number in X; and `RTS`. Its first block may rest on the number in A
//! with which it is called, where it says that its calls come with one.
//! The layer's one contract: a machine that holds this code and is called at a jump to it comes back, in the machine
//! whose memory is what the entrance means, in as many steps as it counts and as many clock cycles as its lines take, with
//! writes where it may alone.
//!
//! It stands on `scope_lines` for the blocks' lines and on `code_runs` for calls. See `docs/scopes.md`.
#![tactic(auto)]

pub mod claims;
mod entrance;

pub use base::NoMemory;
pub use entrance::{Setup, entrance_size, push_entrance};
pub use scope_lines::{Conditions, Line, Listing};
