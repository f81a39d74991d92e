//! The bytes behind the player's code in an image: the lists of a packed song and the frequencies that it asks for, as
//! lines of a listing with the labels that the player's blocks read them by.
//!
//! The layer's one contract: the lines of `data_listing` are the bytes of the lists, one list behind the other, with
//! each label in front of its byte. Where these bytes stand in a memory, and the labels have their addresses, the
//! memory has the lists that the player's blocks ask for.
//!
//! It stands on `player_memory` for what these lists and labels are, on `packed_form` for packed songs, on `song_facts`
//! for what instruments hold, on `play_model` for the frequencies, and on `asm6502` for listings. See
//! `docs/player-blocks.md`.
#![tactic(auto)]

mod bytes;
pub mod claims;
mod labels;
mod listing;
mod marks;
mod orders;
mod places;

pub use asm6502::Listing;
pub use base::NoMemory;
pub use listing::data_listing;
pub use marks::Mark;
pub use orders::first_orders;
pub use packed_form::PackedSong;
