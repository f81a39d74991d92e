//! What the definitions of the code that fetches a row, and of the player's two entrances, take and refuse.
//!
//! Its contract: memories, states, places and calls that are worked by hand are what the laws of that code ask for, and
//! others, each in one point alone, are not.
//!
//! It stands on `fetch_code` and `frame_code`, whose definitions it computes, and nothing stands on it.
#![tactic(auto)]

pub mod claims;
