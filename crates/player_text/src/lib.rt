//! The text of the player, in the language of scopes.
//!
//! Each block stands once, as a constant: what it does, what it finds in the registers and what it leaves in them is
//! said above it. The blocks of a song's features and of options stand under conditions. A comment behind such a
//! condition says where the block is idle: there it changes no byte, comes to its own end, and keeps the registers that
//! are named, so that it can be left out; or that it isn't come to; or that it stores a byte which no line reads where
//! the condition doesn't hold; or, of two sides, where both leave the same. `idle_parts` claims it. The conditions for
//! voices alone leave out more: a voice whole, whose registers stay 0, as `frame_code` claims. Scopes that are left from
//! within blocks of their own are in `joints`.
//!
//! The layer's one contract: the blocks are joined as the lists of their pieces say (`texts`), and the whole has lines
//! whichever conditions hold, rests on the registers that it is given alone, and is as long and as heavy as is said
//! here.
//!
//! It stands on `player_memory` for labels and conditions, and on `scopes` for the language. See
//! `docs/player-blocks.md`.
#![tactic(auto)]

pub mod claims;
pub mod commands;
pub mod effect;
pub mod fetch;
pub mod filter;
pub mod init;
pub mod joints;
mod pieces;
pub mod pitch;
pub mod pulse;
pub mod register;
pub mod silence;
pub mod slide;
pub mod texts;
pub mod tick;
pub mod voice;
pub mod walk;
pub mod wave;
