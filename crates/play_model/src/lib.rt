//! What a song sounds like: the state of the playroutine, one definition for each of its rules, and
//! the frame and the trace that they make up. The playroutine, the packed form and the 6502 player are
//! all measured by these definitions, which are this project's profile of the GoatTracker 2 readme.
//!
//! The layer's one contract: the definitions are total, say for every song and all options what each
//! frame leaves in the SID's 25 registers, and give the values that small songs have by other means.
//!
//! Beside them stands what a song uses of its parts, which features its player needs, and which songs can
//! be played (`Used`, `Reached`, `Features`, `Playable`); the crate `usage` answers it. So does what a frame makes use
//! of, and which states are safe (`Uses`, `Safe`); the crate `safe_states` has their laws. The frequencies of notes and
//! the speeds of slides are functions too, and the playroutine's state is a type with its values at the start.
//!
//! It stands on `song_model`.
#![tactic(auto)]

/// Facts about the definitions.
pub mod claims;
mod frequencies;
mod options;
mod states;
mod unplayable;
mod widths;

pub use frequencies::{freq, slide};
pub use options::{HIGHEST_SPEED, Options, Speed, System};
pub use states::{CommonState, PlayState, VoiceState};
pub use unplayable::Unplayable;
pub use widths::{LastNote, PulseWidth};
