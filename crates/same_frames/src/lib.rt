//! Why a song may be played from other look-ups, in which its parts have other numbers, or its rows stand in other
//! patterns.
//!
//! The layer's main contract: where other look-ups agree with a playable song's own, up to new numbers for the rows of
//! tables, the instruments and the patterns, and on what the song comes to alone, each frame leaves the same in the
//! registers, with any options. It holds since states that differ in these numbers alone stay so in each rule of a
//! frame. Each voice begins with instrument 1: either that keeps its number, or voices begin with its new one, or rows
//! name instruments before notes are played, so that the first one doesn't show.
//!
//! Beside it: orderlists that play the same rows with the same transposes leave the same, whatever patterns hold the
//! rows, where no option looks at the beginning of a pattern.
//!
//! It stands on `safe_states` for what a playable song comes to, on `play_model` for the frame, on `song_model` for the
//! song, and on `base` for lemmas. The crates that pack songs and join them stand on it. It
//! has no code.
#![tactic(auto)]

/// Facts about the definitions.
pub mod claims;
