//! Facts about the definitions, each the contract of a function that does nothing.

ghost use Rattle.cut_pack.specs.ChosenLaws.{ChosenSongsServe, ChosenSongsAreNoLonger, OneIsPacked};
ghost use Rattle.cut_pack.specs.WorkedChosen.{PackedSongsAreAsWorked};

/// What is packed for a song plays the same, asks for the same, and isn't longer; and it is one song.
pub fn one_song_is_packed()
    ensures serves { ChosenSongsServe }
    ensures size { ChosenSongsAreNoLonger }
    ensures one { OneIsPacked }
{}

/// Small songs, which song is packed for each of them, and what packing them answers.
#[tactic(auto, using(crate::proofs::WorkedChosen::packed_songs_are_as_worked_lem))]
pub fn worked_chosen()
    ensures { PackedSongsAreAsWorked }
{}
