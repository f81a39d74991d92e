//! The code of the tick step: a voice counts frames, and where its row is done it starts the note that waits and does
//! the row's command.
//!
//! Its one contract: in any memory that holds a voice that is playing, the code leaves the voice's bytes, and those
//! that voices share, as the tick step leaves its state, and all else; it leaves the voice's step where a note has
//! started, and comes to its end else.
//!
//! It stands on `player_text` for the code, on `scopes` for what code means, on `player_memory` for what memory holds
//! of a voice, and on `player_desk` for the tools of proof.
#![tactic(auto)]

pub mod claims;
