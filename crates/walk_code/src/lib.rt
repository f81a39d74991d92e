//! Tools to prove the code that fetches a row: the walk along an orderlist to its next play, on the desk of a voice.
//!
//! Nothing is claimed here, since all of its words are those of proofs: what the block does is claimed by `fetch_code`.
#![tactic(auto)]
