//! Facts about the definitions, each the contract of a function that does nothing.

ghost use Rattle.narrow_runs.specs.Named.{NamedLabelsStand};
ghost use Rattle.narrow_runs.specs.Narrow.{TreesAreNarrow, EntrancesAreNarrow};
ghost use Rattle.narrow_runs.specs.WorkedNames.{NamesAreWorked, RunsAreWorked};

/// A label that a kept line names stands where it does, if each line that names it stands under one of the conditions
/// under which the label stands.
pub fn named_labels_stand()
    ensures { NamedLabelsStand }
{}

/// A block, and an entrance, does the same in a layout that has no places but those that two others have in common.
pub fn runs_are_narrow()
    ensures trees { TreesAreNarrow }
    ensures entrances { EntrancesAreNarrow }
{}

/// The labels of a small block, and where they stand; and a run in two layouts, and one that isn't narrow: worked by
/// hand.
pub fn worked_names()
    ensures names { NamesAreWorked }
    ensures runs { RunsAreWorked }
{}
