//! The image of a packed song at a place: a relocatable player of the 6502, with the parts that the song needs, and the
//! song's lists.
//!
//! The layer's one contract is that of `build`: it gives the image of the packed song, with its parts named, and that plays
//! every song that the packed song stands for: whatever else is in memory, any init of a playable subtune and any play
//! returns within 60,000 steps and writes in its own places only, and from the first init on it leaves in the SID's
//! registers what the song's frame does. It refuses an image exactly where its length passes the room.
//!
//! It stands on `player_image` for an image's bytes and for what they do, on `image_parts` for its length and whose each
//! byte is, and on `faithful` for what an image is to do. See `docs/player.md`.
#![tactic(auto)]

mod building;
/// Facts about the definitions.
pub mod claims;
mod faults;
mod image;
mod place;
mod spans;

pub use building::build;
pub use faults::BuildFault;
pub use image::{Image, PartSpan, SpanList};
pub use place::{Place, PlaceFault};
