//! The image of a packed song: the code of the lines that are kept for what it asks for and the options, with the
//! variables as the first subtune begins, and the song's lists behind it.
//!
//! Its one contract: an image that stands from `$0800` up to `$D000`, with its pointer from 2 to 254, is a player, so any
//! calls of it in any order play each song that its packed song stands for, by its bytes alone, and as it is built it
//! holds the start of the first subtune, with spare zeros for the variables that have no byte in it. `image_of` makes
//! such an image, where it ends at or below `$D000`.
//!
//! It stands on `player_code` and `song_lists` for its lines, on `kept_lines` for which of them are kept, and on
//! `player_calls` for what its calls do.
#![tactic(auto)]

pub mod claims;
mod image;
mod variables;

pub use base::{ByteList, NoMemory};
pub use image::image_of;
pub use packed_form::PackedSong;
pub use play_model::Options;
pub use variables::start_variables;
