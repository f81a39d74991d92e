//! Why a player of a song may leave out what the song doesn't use.
//!
//! The layer's one contract: whatever a frame of a playable song does, with any options, the song's features name it.
//! It holds since each state that such a song comes to is safe: a voice keeps only what the song uses. A start is safe,
//! and each rule of a frame keeps it so.
//!
//! It stands on `play_model` for the frame, for what a frame uses and for what is safe, and on `song_model` for the song.
//! The crates that answer a song's features and that play it stand on it. It has no code.
#![tactic(auto)]

/// Facts about the definitions.
pub mod claims;
