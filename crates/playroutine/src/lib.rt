//! The playroutine: a player of one subtune of a song, a frame at a time.
//!
//! The layer's one contract: a player that `start` has made gives with its n-th frame the registers of the trace
//! after call n, and stands then for the state after n frames. It takes no memory, and a frame has no condition.
//!
//! Each rule of a frame is a call that leaves in the voice, and in what the voices share, exactly what the rule says:
//! the filter, tick, wave, effect and pulse step, and the fetch of a row. Each has a file of its own, as its definition
//! has in `play_model`.
//!
//! It stands on `play_model` for the rules' definitions and the states, on `song_model` for the song, and on
//! `safe_states` for the law that the song's features name whatever a frame does. The command `trace` stands on it.
#![tactic(auto)]

/// Facts about the definitions.
pub mod claims;
mod commands;
mod effect;
mod fetch;
mod filter;
mod frames;
mod notes;
mod players;
mod pulse;
mod registers;
mod rows;
mod slides;
mod tables;
mod tick;
mod voices;
mod wave;

pub use effect::effect_step;
pub use fetch::fetch_row;
pub use filter::filter_step;
pub use players::{NoSuchSubtune, Player, start};
pub use pulse::pulse_step;
pub use tick::tick_step;
pub use wave::wave_step;
