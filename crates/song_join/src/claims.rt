//! Facts about the definitions, each the contract of a function that does nothing.

ghost use Rattle.song_join.specs.JoinLaws.{JoinedSongsAreWhole, SumsAdd};
ghost use Rattle.song_join.specs.WorkedJoins.{NumbersRise, SongsAreJoined};
ghost use Rattle.song_join.specs.WorkedJoinable.{JoinableSongs, SongsAreRefused};
ghost use Rattle.song_join.specs.WorkedWhole.{BeginningsAreKept, BothArePlayed, JoinsAreWhole, SongsAreJoinable};
ghost use Rattle.song_join.specs.WorkedRefusals.{PartsAreLimited, OversAreFirst, VoidSubtunesCount};
ghost use Rattle.song_join.specs.WorkedRefusals.{InstrumentsAreLoose, SpeedsAreLoose, PlacesAreFirst};
ghost use Rattle.song_join.specs.WorkedRefusals.{TimersAreCompared, NotesAreUnnamed, UnnamedPlaces};

/// The joined song begins with the first one, keeps the limits of the format, can be played, and plays what both songs
/// play, with any options: the first song's subtunes, and then the second's.
pub fn joined_songs_are_whole()
    ensures { JoinedSongsAreWhole }
{}

/// A joined song has of each part what both songs bring: so a third song is refused for a part exactly where the three
/// have too many of it.
#[tactic(auto, using(crate::proofs::Sums::sums_add_lem))]
pub fn sums_add()
    ensures { SumsAdd }
{}

/// Numbers that rise, and two small songs in one.
#[tactic(auto, using(crate::proofs::WorkedJoins::numbers_rise_lem, crate::proofs::WorkedJoins::songs_are_joined_lem))]
pub fn worked_joins()
    ensures numbers { NumbersRise }
    ensures songs { SongsAreJoined }
{}

/// What songs are refused for, and what not: limits, parts that aren't stored, the order of places, and timers.
#[tactic(auto, using(crate::proofs::WorkedRefusals::parts_are_limited_lem, crate::proofs::WorkedRefusals::overs_are_first_lem, crate::proofs::WorkedRefusals::void_subtunes_lem, crate::proofs::WorkedRefusals::instruments_are_loose_lem, crate::proofs::WorkedRefusals::speeds_are_loose_lem, crate::proofs::WorkedRefusals::places_are_first_lem, crate::proofs::WorkedRefusals::timers_are_compared_lem))]
pub fn worked_refusals()
    ensures parts { PartsAreLimited }
    ensures overs { OversAreFirst }
    ensures subtunes { VoidSubtunesCount }
    ensures instruments { InstrumentsAreLoose }
    ensures speeds { SpeedsAreLoose }
    ensures places { PlacesAreFirst }
    ensures timers { TimersAreCompared }
{}

/// Notes that are played before a row names an instrument, and others that aren't.
#[tactic(auto, using(crate::proofs::WorkedRefusals::notes_are_unnamed_lem, crate::proofs::WorkedRefusals::unnamed_places_lem))]
pub fn worked_openings()
    ensures notes { NotesAreUnnamed }
    ensures places { UnnamedPlaces }
{}

/// Songs that can be joined, and others that can't, each for one reason.
#[tactic(auto, using(crate::proofs::WorkedJoinable::joinable_songs_lem, crate::proofs::WorkedJoinable::songs_are_refused_lem))]
pub fn worked_joinable()
    ensures joinable { JoinableSongs }
    ensures refused { SongsAreRefused }
{}

/// A whole join, and others that aren't, each for one reason; so too for songs that are joinable.
#[tactic(auto, using(crate::proofs::WorkedWhole::beginnings_are_kept_lem, crate::proofs::WorkedWhole::both_are_played_lem, crate::proofs::WorkedWhole::joins_are_whole_lem, crate::proofs::WorkedWhole::songs_are_joinable_lem))]
pub fn worked_whole()
    ensures begins { BeginningsAreKept }
    ensures plays { BothArePlayed }
    ensures whole { JoinsAreWhole }
    ensures joinable { SongsAreJoinable }
{}
