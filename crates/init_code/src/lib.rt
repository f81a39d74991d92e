//! The code that begins a subtune: it clears the registers and most of the variables, and sets those that begin with
//! another number; where there are several subtunes, the voices' orderlists, from the lists of their addresses; and where
//! there are several play calls in a picture, the timer too. A variable that a song has no use for it doesn't set.
//!
//! Its one contract: in any memory with 0 in each variable that it would clear and doesn't, the code comes to its end
//! with each variable that holds something as a subtune begins with it, for the orderlists whose addresses the lists
//! have, or, where there is one subtune alone, the variables already; with the registers 0 and the timer set; and leaves
//! all else but its pointer.
//!
//! It stands on `player_text` for the code, on `scopes` for what code means, and on `player_memory` for what the
//! variables begin with.
#![tactic(auto)]

pub mod claims;
