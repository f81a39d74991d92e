//! What bounds on cycles say, worked by hand: of numbers of a small program, and of small images.
//!
//! The layer's one contract: the definitions of `player_bound` say of these what was worked out, so that a definition
//! that says something else is refused.
//!
//! It stands on `player_bound`, whose definitions it computes, and on `faithful` for images, and nothing stands on it. See
//! `docs/cycles.md`.
#![tactic(auto)]

/// Facts about the definitions of `player_bound`.
pub mod claims;
