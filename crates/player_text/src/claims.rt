//! Facts about the texts, each the contract of a function that does nothing.

ghost use Rattle.player_text.specs.Steps.{AreMade};
ghost use Rattle.player_text.specs.Facts.{AreBlocks, HaveLines, RestOnFew, NameFew, AreMeasured};

/// The trees of the steps of a voice, and that of a voice, are made of those of their pieces.
#[tactic(auto, using(crate::proofs::Facts::are_made))]
pub fn texts_are_made()
    ensures { AreMade }
{}

/// The player's blocks are in good form, and have lines whichever conditions hold.
#[tactic(auto, using(crate::proofs::Facts::are_blocks, crate::proofs::Facts::have_lines))]
pub fn texts_have_lines()
    ensures blocks { AreBlocks }
    ensures lines { HaveLines }
{}

/// The player's blocks rest on few registers, and name labels of the player's memory alone.
#[tactic(auto, using(crate::proofs::Facts::rest_on_few, crate::proofs::Facts::name_few))]
pub fn texts_are_apart()
    ensures registers { RestOnFew }
    ensures labels { NameFew }
{}

/// How many bytes the player's blocks take, and how many instructions they run at most.
#[tactic(auto, using(crate::proofs::Facts::are_measured))]
pub fn texts_are_measured()
    ensures { AreMeasured }
{}
