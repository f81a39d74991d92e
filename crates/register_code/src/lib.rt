//! The code that writes a voice's registers: seven of the SID's, from the voice's state.
//!
//! Its one contract: in any memory that holds a voice that is playing, the code comes to its end with the registers
//! that a frame has from the voice's state, and leaves every other place of memory.
//!
//! It stands on `player_text` for the code, on `scopes` for what code means, on `player_memory` for what memory holds
//! of a voice, and on `player_desk` for the tools of proof.
#![tactic(auto)]

pub mod claims;
