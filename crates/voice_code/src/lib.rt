//! The code of a voice in a frame, put together from its blocks: its step, the fetch of its next row, and its
//! registers.
//!
//! Its contract: in any memory that holds a voice that is playing and is in its song, with the lists that its steps
//! read, the code leaves the voice's state as the rule of a voice's step gives it, still in its song, and the voice's
//! seven registers as that state has them; and it leaves all else.
//!
//! It stands on the crates of the blocks for what each of them does, and on `player_text` for how they are joined.
#![tactic(auto)]

pub mod claims;
