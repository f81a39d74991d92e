//! Images: machine code and data that play a song when they are called, wherever in memory they stand.
//!
//! It has definitions and laws, and no code. `IsFaithful` says when an image plays a song: whatever else is in memory,
//! init and each play return, write in their own places only, and leave the SID's registers as the song's frames do.
//! `PlaysAlways` says the same of any calls in any order, each within 60,000 steps: from the first init on each leaves the
//! registers of a frame. `IsIsolated` says that from the first init on a call depends on the image's bytes alone. It
//! claims that what plays always is faithful, and that an image does the same for songs that play the same. It works by
//! hand the images' own places, machines, and small images: some that play the silent song, some that play it in order
//! alone, and some beside them with one thing that is wrong.
//!
//! It stands on `play_model` for what a song sounds like, on `same_frames` for when two songs play the same, on `cpu6502`
//! and `sid_run` for the machine and its calls, and on `code_runs` to run the small images.
//! See `docs/player.md`.
#![tactic(auto)]

/// Facts about the definitions.
pub mod claims;
