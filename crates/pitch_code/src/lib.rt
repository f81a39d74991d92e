//! The code behind a voice's wave and effect steps: a note's frequency, and a lent command that goes back.
//!
//! Its contracts: in any memory that holds a voice that is playing, the first leaves the voice's state as the rule sets
//! the note; and in any memory the second leaves the voice its own command where one is lent, and else every place as
//! it was.
//!
//! It stands on `player_text` for the code, on `scopes` for what code means, on `player_memory` for what memory holds
//! of a voice, and on `player_desk` for the tools of proof.
#![tactic(auto)]

pub mod claims;
