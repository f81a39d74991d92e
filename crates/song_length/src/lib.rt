//! How long a song is, and what its dearest call costs, for ever.
//!
//! The layer's one contract: where the machine after some play is that after a later one, all that comes behind the one
//! comes behind the other, call by call. So the first such play, the fewest plays till then, and the dearest play up to
//! there tell all that a song will ever do; or a call doesn't return, and which one is told.
//!
//! It stands on `sid_run`, which makes the calls. Who prints what is told adds the words.
#![tactic(auto)]

/// Facts about the definitions.
pub mod claims;
mod costs;
mod counts;
mod measuring;
mod places;
mod playing;

pub use costs::play_cycles;
pub use counts::Dearest;
pub use measuring::{MOST_CALLS, MeasureFault, Measured, Repeat, measure};
