//! Facts about the definitions, each the contract of a function that does nothing.

ghost use Rattle.same_frames.specs.FrameLaws.{SongsAgreeWithThemselves, TracesOfSongs, RulesAreSame, FramesAreSame};
ghost use Rattle.same_frames.specs.Begins.{FirstInstrumentsDoNotShow};
ghost use Rattle.same_frames.specs.UseLaws.{UsesAreSame, NoOtherCase};
ghost use Rattle.same_frames.specs.SameRows.{SameRowsPlayTheSame};
ghost use Rattle.same_frames.specs.RowLists.{RowListsPlaySameRows};
ghost use Rattle.same_frames.specs.OrderLaws.{MovedOrdersPlayFor, MovedSubtunesPlayFor};
ghost use Rattle.same_frames.specs.WorkedMaps.{NumbersAreAsWorked};
ghost use Rattle.same_frames.specs.WorkedRows.{CutsAreAsWorked};
ghost use Rattle.same_frames.specs.WorkedBegins.{BeginningsAreAsWorked};

/// Over look-ups that agree with a playable song up to new numbers, frames of states that are alike leave the same
/// registers and states that are alike, with any options. So does each call of a subtune, where the voices begin with the
/// new number of instrument 1, or that is 1.
pub fn frames_are_same()
    ensures { FramesAreSame }
{}

/// Each rule of a frame keeps what it works on alike.
#[tactic(auto, using(crate::proofs::Frames::rules_same_lem))]
pub fn rules_are_same()
    ensures { RulesAreSame }
{}

/// Without new numbers a song's own look-ups agree with it.
pub fn songs_agree_with_themselves()
    ensures { SongsAgreeWithThemselves }
{}

/// Over a song's own look-ups the registers are the song's trace.
#[tactic(auto, using(crate::proofs::Frames::traces_of_songs_lem))]
pub fn traces_of_songs()
    ensures { TracesOfSongs }
{}

/// Where rows name instruments before notes are played, or with them, the instrument with which each voice begins doesn't
/// show, but in when rows are fetched.
#[tactic(auto, using(crate::proofs::BegunFrames::first_instruments_lem))]
pub fn first_instruments_do_not_show()
    ensures { FirstInstrumentsDoNotShow }
{}

/// Orderlists that play the same rows with the same transposes, one behind the other for ever, leave the same registers
/// after each call, whatever patterns hold these rows, where no option looks at the beginning of a pattern.
#[tactic(auto, using(crate::proofs::SameTraces::same_rows_lem))]
pub fn same_rows_play_the_same()
    ensures { SameRowsPlayTheSame }
{}

/// Orderlists whose plays have the same rows with the same transposes, as lists, from the start to the end and from the
/// restart position to the end, play the same rows for ever.
#[tactic(auto, using(crate::proofs::RowLists::row_lists_lem))]
pub fn row_lists_play_same_rows()
    ensures { RowListsPlaySameRows }
{}

/// A frame over the other look-ups uses what the song's frame after a state that is alike uses.
#[tactic(auto, using(crate::proofs::Uses::uses_same_lem))]
pub fn uses_are_same()
    ensures { UsesAreSame }
{}

/// Where instrument 1 keeps its number no frame over the other look-ups uses more than the song's features.
pub fn no_other_case()
    ensures { NoOtherCase }
{}

/// An orderlist with new numbers for its patterns plays these patterns.
#[tactic(auto, using(crate::proofs::Orders::moved_orders_lem))]
pub fn moved_orders_play()
    ensures { MovedOrdersPlayFor }
{}

/// So does a subtune, with no repeat or transpose that wasn't there.
#[tactic(auto, using(crate::proofs::Orders::moved_subtunes_lem))]
pub fn moved_subtunes_play()
    ensures { MovedSubtunesPlayFor }
{}

/// A small song with other numbers: its parts, its patterns and its frames.
#[tactic(auto, using(crate::proofs::WorkedMaps::numbers_are_as_worked_lem))]
pub fn worked_maps()
    ensures { NumbersAreAsWorked }
{}

/// Small songs whose voices begin with one instrument or another: what is played before one is named, and where it shows.
#[tactic(auto, using(crate::proofs::WorkedBegins::beginnings_are_as_worked_lem))]
pub fn worked_begins()
    ensures { BeginningsAreAsWorked }
{}

/// A small song and the same song with its pattern cut in two: their rows and frames, and what is refused.
#[tactic(auto, using(crate::proofs::WorkedRows::cuts_are_as_worked_lem))]
pub fn worked_cuts()
    ensures { CutsAreAsWorked }
{}
