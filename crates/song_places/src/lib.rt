//! The places of a song that need a feature or give it a fact, and the first one that does, of a feature, of a fact and
//! of a part of the player.
//!
//! The layer's one contract: `first_place`, `first_fact_place` and `part_place` answer a place exactly where some place
//! needs the feature, gives the fact, or does this with a feature or a fact that keeps the part, and then the first one
//! in the order of places.
//!
//! It stands on `usage` for what a song uses, on `play_model` and `song_facts` for what a feature and a fact are, and
//! on `kept_lines` for which parts they keep. `song_costs` stands on it for the reason of each part.
#![tactic(auto)]

/// Facts about the definitions.
pub mod claims;
mod first_places;
mod instruments;
mod needs;
mod orders;
mod part_places;
mod patterns;
mod places;
mod wave_rows;

pub use first_places::{first_fact_place, first_place};
pub use part_places::part_place;
pub use places::Place;
