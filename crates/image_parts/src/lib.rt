//! How long an image is, and whose each byte of its code is.
//!
//! A part of the player is a condition: 0 to 23 are the features of a song, 24 to 27 the options, 28 to 33 what several
//! features have in common, 34 to 55 the song's facts, and 56 to 60 what several facts or features have in common. Part
//! 255 is what every image has: the jumps, the variables, the code under no condition, what stands in the place of
//! lines that aren't kept, and two zeros among the lists.
//!
//! The layer's one contract: the parts that are made for what a song asks for and for options are those of the code's
//! blocks, byte for byte, with what stands around the blocks; they add up to the code; a part that isn't kept has none,
//! each other one has at most 320 bytes and part 255 has 443 to 502; the code has at most 1,669; and an image is no
//! longer than its packed song and the bound of a player.
//!
//! It makes no code. It stands on `player_text` for the blocks, on `player_code` for the lines around them, on
//! `scope_parts` for the parts of a block, on `kept_lines` for which conditions hold, and on `variable_places` for how
//! many variables there are. See `docs/player.md`.
#![tactic(auto)]

pub mod claims;
mod lengths;
mod parts;

pub use base::{ByteList, NoMemory};
pub use lengths::{
    code_length, frequency_bytes, image_length, part_length, read_size, slide_bytes,
};
pub use parts::{ALWAYS, code_parts};
