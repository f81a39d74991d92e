//! A frame of a packed song is ready: what the code of a frame asks of memory and of the state follows from the packed
//! song.
//!
//! Its contract: where a packed song stands for a song, its lists stand in memory, and the lines are kept of what the
//! frame after a safe state uses and of the packed song's facts, and of no other facts, the filter and each voice have
//! what their steps read, and are ready for them.
//!
//! It stands on `frame_code` for what is asked, on `safe_states` for which states a song comes to, and on `packed_form`
//! for what a packed song has.
#![tactic(auto)]

pub mod claims;
