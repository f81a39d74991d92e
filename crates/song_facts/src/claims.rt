//! Facts about the definitions, each the contract of a function that does nothing.

ghost use Rattle.song_facts.specs.WorkedFacts.{RowsAreTold, InstrumentsAreTold, HoldsAreTold, SongsAreTold};
ghost use Rattle.song_facts.specs.WorkedFacts.{SetsAreTold};

/// Rows and instruments that a fact is about, and others beside them that it isn't; what instruments hold; songs that
/// have a fact, and others that haven't it; and the facts of a song that uses nothing, which are no other set's.
#[tactic(auto, using(crate::proofs::WorkedFacts::rows_are_told, crate::proofs::WorkedFacts::instruments_are_told, crate::proofs::WorkedFacts::holds_are_told, crate::proofs::WorkedFacts::songs_are_told, crate::proofs::WorkedFacts::sets_are_told))]
pub fn worked_facts()
    ensures rows { RowsAreTold }
    ensures instruments { InstrumentsAreTold }
    ensures holds { HoldsAreTold }
    ensures songs { SongsAreTold }
    ensures sets { SetsAreTold }
{}
