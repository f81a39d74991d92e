//! Facts about packed songs, each the contract of a function that does nothing.

ghost use Rattle.packed_form.specs.WalkLaws.{WalksEnd, WalkCountsAreBytes, EndmarksCount, PlainWalksAreTwo};
ghost use Rattle.packed_form.specs.Holders.{HoldersStandLast};
ghost use Rattle.packed_form.specs.WorkedBounds.{CodeBoundsAre, MostSizeIs};
ghost use Rattle.packed_form.specs.WorkedPlaces.{EdgesAreWorked};
ghost use Rattle.packed_form.specs.WorkedUnpacked.{OrdersAreUnpacked, PatternsAreUnpacked, PackedNotesAreUnpacked};
ghost use Rattle.packed_form.specs.WorkedWalks.{PatternsAlone, TransposesArePassed, RepeatsArePassed, RunsArePassed};
ghost use Rattle.packed_form.specs.WorkedWalks.{SubtunesAreCompared, EndsAreCounted};
ghost use Rattle.packed_form.specs.WorkedHolders.{OrdersAreTold, HoldersAreCounted};

/// Bounds of the player's code, and the bound of a packed song's size.
pub fn worked_bounds()
    ensures code { CodeBoundsAre }
    ensures size { MostSizeIs }
{}

/// The edges of where an image may stand.
pub fn worked_places()
    ensures { EdgesAreWorked }
{}

/// Orderlists and patterns, unpacked.
#[tactic(auto, unfolding(crate::specs::Unpacked::unpacked_pattern))]
pub fn worked_unpacking()
    ensures orders { OrdersAreUnpacked }
    ensures patterns { PatternsAreUnpacked }
{}

/// A packed song of one note, read as a song.
#[tactic(auto, using(crate::proofs::WorkedUnpacked::packed_notes_are_unpacked))]
pub fn worked_packed_note()
    ensures { PackedNotesAreUnpacked }
{}

/// Each orderlist of a packed song that goes on for ever is walked within the song's count, a look after the other.
pub fn walks_end()
    ensures { WalksEnd }
{}

/// The count of a packed song whose orderlists go on for ever is a byte, and 2 or more where it has a subtune; it is 2
/// where all entries are numbers of patterns.
pub fn walk_counts_are_bytes()
    ensures bytes { WalkCountsAreBytes }
    ensures endmarks { EndmarksCount }
    ensures plain { PlainWalksAreTwo }
{}

/// Ways to a pattern, and counts of packed songs.
pub fn worked_walks()
    ensures patterns { PatternsAlone }
    ensures transposes { TransposesArePassed }
    ensures repeats { RepeatsArePassed }
    ensures runs { RunsArePassed }
    ensures subtunes { SubtunesAreCompared }
    ensures ends { EndsAreCounted }
{}

/// Where the instruments of a packed song stand in the order of what they hold before their notes, those that hold so
/// much are those whose numbers aren't below the first of them.
#[tactic(auto, using(crate::proofs::LastHolders::holders_stand_last))]
pub fn holders_stand_last()
    ensures { HoldersStandLast }
{}

/// Instruments that are in order, and such as aren't, and the first that holds so much.
#[tactic(auto, using(crate::proofs::WorkedHolders::orders_are_told, crate::proofs::WorkedHolders::holders_are_counted))]
pub fn worked_holders()
    ensures orders { OrdersAreTold }
    ensures counts { HoldersAreCounted }
{}
