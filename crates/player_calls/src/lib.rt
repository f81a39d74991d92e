//! The calls of a player in an image: whatever else is in memory, each call returns, writes in its own places alone, and
//! leaves the registers of the song's frames.
//!
//! Its one contract: for any listing that is a player's, any calls in any order play the song that its packed song
//! stands for, by the image's bytes alone.
//!
//! It stands on `frame_code` and `frame_scenes` for what the two calls mean, on `player_code` for where they stand, on
//! `scope_calls` for what a call of an entrance does, and on `faithful` for what it is to play a song.
#![tactic(auto)]

pub mod claims;
