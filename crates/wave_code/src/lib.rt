//! The code of the wave step, which does one row of a voice's wave program, or one frame of a delay; of what tells
//! which effect runs; and of a command of the wave table.
//!
//! Its contracts: in any memory that holds a voice that is playing, the code leaves the voice's bytes as the rule
//! leaves its state, and all else, and goes on to where the rule does. A command that is lent to the effect step goes on
//! to where a frame of it is done, and the voice's own one is kept.
//!
//! It stands on `player_text` for the code, on `scopes` for what code means, on `player_memory` for what memory holds
//! of a voice, and on `player_desk` for the tools of proof.
#![tactic(auto)]

pub mod claims;
