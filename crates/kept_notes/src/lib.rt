//! Why a player may store the numbers of the frequency table that its song asks for alone, and one gateoff timer where
//! all of its song's are the same.
//!
//! The layer's one contract: whatever number the step of a voice looks up is one that the song asks for
//! (`IsAskedNumber`), in each state that a playable song comes to. It holds since each voice keeps only notes that the
//! song plays (`KeepsNotes`): a start keeps them, and each rule of a frame does. It keeps the
//! song's gateoff timers too: where it comes to its fetch, it has that of an instrument that the song uses.
//!
//! It stands on `asked_numbers` for what a song asks for, on `play_model` for the frame and for what of a song is used,
//! on `safe_states` for what a voice of a playable song keeps besides, and on `song_model` for the song. It has no code.
#![tactic(auto)]

/// Facts about the definitions.
pub mod claims;
