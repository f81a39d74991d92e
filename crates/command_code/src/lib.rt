//! The code of the commands that are done once, 5 to `$F`, each by blocks of its own: those that a row and the wave
//! table do alike, and those of a row alone; and what leads through the blocks of several, one after the other.
//!
//! Nothing is claimed here, since all of its words are those of proofs: what a row's command does is claimed by
//! `tick_code`, and what a command of the wave table does by `wave_code`.
//!
//! It stands on `player_text` for the code, on `play_model` for the rules, and on `player_desk` for the tools of proof.
#![tactic(auto)]
