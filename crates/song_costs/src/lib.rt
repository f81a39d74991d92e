//! What a song costs in a packed file, and why: bytes by kind, and for each part of the player the first place that
//! wants it.
//!
//! The layer's one contract: the numbers of `costs_by_kind` are those of the packed form's definitions and add up to
//! the image's length, and `part_cost` tells a part exactly where it is kept and has bytes, with the first place of the
//! song that needs it, for a feature or a fact that keeps it.
//!
//! It stands on `packed_form`, `packing_rules` and `song_pack` for what is packed and how many bytes that has, on
//! `kept_lines` for which parts of the player are kept, on `image_parts` for their bytes, and on `song_places` for the
//! place of the song that keeps each. The command that tells costs stands on it.
#![tactic(auto)]

/// Facts about the definitions.
pub mod claims;
mod costs;
mod kept;

pub use costs::{Costs, costs_by_kind};
pub use kept::{Cause, PART_NAMES, PARTS, PartCost, part_cost};
pub use song_places::Place;
