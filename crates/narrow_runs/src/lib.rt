//! What a block does where labels that no kept line names have no place.
//!
//! Its one contract: a run in a layout without such places comes to the same as two runs in layouts that have them,
//! where these two have nothing but what the first has in common, and neither is stuck.
//!
//! It stands on `scopes` for what lines mean, on `scope_lines` for which trees have lines, and on `scope_calls` for
//! entrances.
#![tactic(auto)]

pub mod claims;
