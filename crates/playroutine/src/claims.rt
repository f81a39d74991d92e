//! Facts about the definitions of this crate, each the contract of a function that does nothing.

ghost use Rattle.playroutine.specs.Played.{PlayersGiveTheTrace};

/// A player that is played on and on from the start gives the trace of its subtune, a call after the other.
#[tactic(auto, using(crate::proofs::Traces::players_give_the_trace_lem))]
pub fn players_give_the_trace()
    ensures { PlayersGiveTheTrace }
{}
