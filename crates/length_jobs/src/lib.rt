//! The jobs that tell how long the songs of a PSID file are, and what their calls cost.
//!
//! The layer's one contract: each job ends as `jobs` says that it does (`JobEnds`): at the first of its stages that doesn't
//! pass, or with what it is for done. What is told, and drawn, of a song is said in `song_length` and `song_chart`.
//!
//! It stands on `jobs` for what a job is and for the stages that several have, on `command_line` for lines, on `goat_io` for
//! folders and sinks, on `song_length` for measuring, on `song_chart` for the picture, and on `psid` and `cpu6502` for the
//! file and how a call of it stops.
#![tactic(auto)]

/// `chart IN OUT SUBTUNE CALLS`.
pub mod chart;
/// `measure IN CALLS`.
pub mod measure;
mod refusals;
