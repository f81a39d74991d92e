//! The code of the filter step, the first in a frame: one row of the filter program, or one frame of it, and the four
//! registers that all voices share.
//!
//! Its one contract: in any memory that holds what the voices share, the code comes to its end with these bytes as the
//! filter step leaves them and with the registers 21 to 24 of the frame, and leaves all else.
//!
//! It stands on `player_text` for the code, on `scopes` for what code means, on `player_memory` for what memory holds,
//! and on `player_desk` for the tools of proof.
#![tactic(auto)]

pub mod claims;
