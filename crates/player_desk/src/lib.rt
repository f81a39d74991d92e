//! Tools to prove the player's blocks: the desk as the code of a voice sees it, where a block leads from there, and
//! what it leaves in memory.
//!
//! Nothing is claimed here, since all of its words are those of proofs: what a block does is claimed by the block's
//! crate, in the words of `scopes` and `player_memory`.
#![tactic(auto)]
