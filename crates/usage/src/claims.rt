//! Facts about the definitions of this crate, each the contract of a function that does nothing.

ghost use Rattle.usage.specs.Cases.{EachSpeedIsNamed};
ghost use Rattle.usage.specs.PartLaws.{PartsAreTheSongs};

/// Each song has one count of each kind of used parts, one set of features and one of facts.
#[tactic(auto, using(crate::proofs::OneParts::parts_are_the_songs_lem))]
pub fn parts_are_the_songs()
    ensures { PartsAreTheSongs }
{}

/// The features that are answered name the cases of frames at each speed, with each option.
pub fn each_speed_is_named()
    ensures { EachSpeedIsNamed }
{}
