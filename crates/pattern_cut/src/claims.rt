//! Facts about the definitions, each the contract of a function that does nothing.

ghost use Rattle.pattern_cut.specs.Cuts.{CutOrdersHaveSameRowLists};
ghost use Rattle.pattern_cut.specs.CutLaws.{CutSongsStandIn, ChosenCutsFit, ChosenWaysWeighNoMore};
ghost use Rattle.pattern_cut.specs.WorkedCuts.{PatternCutsAreAsWorked};
ghost use Rattle.pattern_cut.specs.WorkedPieces.{PatternPiecesAreAsWorked};
ghost use Rattle.pattern_cut.specs.WorkedChoice.{PatternChoicesAreAsWorked};
ghost use Rattle.pattern_cut.specs.WorkedStandIns.{PatternStandInsAreAsWorked};

/// An orderlist that names the pieces of its patterns has the same rows with the same transposes, as lists.
pub fn cut_orders_have_same_row_lists()
    ensures { CutOrdersHaveSameRowLists }
{}

/// A song whose patterns are cut can be played, plays the same, and asks for the same.
pub fn cut_songs_stand_in()
    ensures { CutSongsStandIn }
{}

/// With the lengths that are chosen the pieces fit.
#[tactic(auto, using(crate::proofs::Choices::chosen_cuts_fit_lem))]
pub fn chosen_cuts_fit()
    ensures { ChosenCutsFit }
{}

/// With them the song weighs no more than in pieces of any one length.
pub fn chosen_ways_weigh_no_more()
    ensures { ChosenWaysWeighNoMore }
{}

/// Small orderlists whose patterns are in pieces, and what isn't cut.
#[tactic(auto, using(crate::proofs::WorkedCuts::pattern_cuts_are_as_worked_lem))]
pub fn worked_cuts()
    ensures { PatternCutsAreAsWorked }
{}

/// Small patterns in pieces, what stays whole, and a small song whose patterns are cut.
#[tactic(auto, using(crate::proofs::WorkedPieces::pattern_pieces_are_as_worked_lem))]
pub fn worked_pieces()
    ensures { PatternPiecesAreAsWorked }
{}

/// Small songs that fit, what they weigh, and how their patterns are cut.
#[tactic(auto, using(crate::proofs::WorkedChoice::pattern_choices_are_as_worked_lem))]
pub fn worked_choice()
    ensures { PatternChoicesAreAsWorked }
{}

/// Small songs that ask for the same as others, or stand in for them, and songs that don't.
#[tactic(auto, using(crate::proofs::WorkedStandIns::pattern_stand_ins_are_as_worked_lem))]
pub fn worked_stand_ins()
    ensures { PatternStandInsAreAsWorked }
{}
