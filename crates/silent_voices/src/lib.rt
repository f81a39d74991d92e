//! Why a player may leave out all that it does for a voice whose channel has nothing to play.
//!
//! The layer's one contract: a channel whose patterns have no note and no command keeps its voice mute (`IsMute`), in
//! each state that a playable song comes to. What the voice does in its turn leaves its seven registers at 0 and
//! changes nothing of what the voices share. One case is apart: with a tempo of 0 or 1 a voice exchanges its own tempo
//! each time that it loads a row's length.
//!
//! It stands on `song_facts` for what a row is heard by, on `play_model` for the frame, and on `song_model` for the
//! song. It has no code.
#![tactic(auto)]

/// Facts about the definitions.
pub mod claims;
