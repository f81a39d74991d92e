//! The code of the effect step: the frequency slides, swings, or is at its note.
//!
//! Its one contract: in any memory that holds a voice that is playing, with the command that runs in A, the code comes
//! to its end where the frequency arrives at the note, with the note's number in A; else it leaves the effect with the
//! voice's bytes as the rule of the command leaves its state. All else it leaves, but slides that are calculated.
//!
//! It stands on `player_text` for the code, on `scopes` for what code means, on `player_memory` for what memory holds
//! of a voice, and on `player_desk` for the tools of proof.
#![tactic(auto)]

pub mod claims;
