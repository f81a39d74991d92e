//! The code of the pulse step: one row of a voice's pulse program, or one frame of it.
//!
//! Its one contract: in any memory that holds a voice that is playing, the code comes to its end with the voice's bytes
//! as the pulse step leaves its state, and leaves all else.
//!
//! It stands on `player_text` for the code, on `scopes` for what code means, on `player_memory` for what memory holds
//! of a voice, and on `player_desk` for the tools of proof.
#![tactic(auto)]

pub mod claims;
