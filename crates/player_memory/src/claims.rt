//! Facts about the definitions, each the contract of a function that does nothing.

ghost use Rattle.play_model.specs.LookUps.{LookUps};
ghost use Rattle.player_memory.specs.WorkedCommands.{CommandsAreWorked};
ghost use Rattle.player_memory.specs.WorkedConditions.{ConditionsAreFeatures, ConditionsAreFacts, FactLinesAreWorked};
ghost use Rattle.player_memory.specs.WorkedConditions.{RunsAreWorked};
ghost use Rattle.scopes.specs.Desk.{Layout};
ghost use Rattle.player_memory.specs.Starting.{BeginningsPlay};
ghost use Rattle.player_memory.specs.WorkedFetching.{SongsAreWorked};
ghost use Rattle.player_memory.specs.WorkedForms.{FormsAreWorked};
ghost use Rattle.player_memory.specs.WorkedHolds.{ListsAreInMemory, LayoutsAreWorked, StatesAreHeld, KeptAreWorked};
ghost use Rattle.player_memory.specs.WorkedHolds.{HeldAreWorked};
ghost use Rattle.player_memory.specs.WorkedLists.{SongListsAreWorked};
ghost use Rattle.player_memory.specs.WorkedMemory.{VariablesHaveRows, VoicesAreWorked, RoomsAreWorked};
ghost use Rattle.player_memory.specs.WorkedMemory.{VoiceRowsAreWorked, CommonsAreWorked};
ghost use Rattle.player_memory.specs.WorkedPlays.{PlaysAreWorked, ListsAreWorked};
ghost use Rattle.player_memory.specs.WorkedStarting.{BeginningsAreWorked, FirstPlaysAreWorked};

/// Each of the variables is a byte of one voice, or of none, and has one row in the tables that say what it is for.
pub fn variables_have_rows()
    ensures { VariablesHaveRows }
{}

/// A voice in its bytes, and bytes that don't hold it, under each condition alone; what the voices share in its bytes; a
/// room in memory, and what is none, or isn't outside of it; a block that has left a voice's memory as it was, and what
/// it may not have done; and lists of two rows and of 255: worked by hand.
pub fn worked_memory()
    ensures voices { VoicesAreWorked }
    ensures voice_rows { VoiceRowsAreWorked }
    ensures commons { CommonsAreWorked }
    ensures rooms { RoomsAreWorked }
    ensures plays { PlaysAreWorked }
    ensures lists { ListsAreWorked }
{}

/// A voice in its song: before the first walk, at a pattern's first row and in a run of rests; and bytes that don't say
/// where it is: worked by hand.
pub fn worked_songs()
    ensures { (look : LookUps) → SongsAreWorked look }
{}

/// The condition under which the lines of each of the 24 features are kept is the one with the number of its bit, and
/// that of each fact the one with the fact's number, from 34 on.
#[tactic(auto, using(crate::proofs::WorkedConditions::conditions_are_features, crate::proofs::WorkedConditions::conditions_are_facts))]
pub fn conditions_are_features()
    ensures features { ConditionsAreFeatures }
    ensures facts { ConditionsAreFacts }
{}

/// Layouts that keep the lines of a song's facts, or don't, and the voices that are run in some, worked by hand.
pub fn worked_fact_lines()
    ensures facts { (layout : Layout) → FactLinesAreWorked layout }
    ensures runs { (layout : Layout) → RunsAreWorked layout }
{}

/// The condition that keeps the lines of each command, in a row and in the wave table, and layouts that keep them or
/// don't: worked by hand.
pub fn worked_commands()
    ensures { CommandsAreWorked }
{}

/// Where the variables begin with the bytes of the start state, each of the three voices plays in it, and is in front
/// of the orderlist at its address.
pub fn beginnings_play()
    ensures { BeginningsPlay }
{}

/// Variables that begin so, and such as don't, for each kind of byte; and a voice that plays from the start in them:
/// worked by hand.
pub fn worked_beginnings()
    ensures bytes { BeginningsAreWorked }
    ensures plays { (look : LookUps) → FirstPlaysAreWorked look }
{}

/// Rows of the wave table in the form in which they are stored: delays, low waveforms, notes, commands and jumps,
/// worked by hand.
pub fn worked_forms()
    ensures { FormsAreWorked }
{}

/// The lists of a packed song of two subtunes and two instruments: which there are, the label of each, its first number
/// and its bytes, worked by hand.
pub fn worked_lists()
    ensures { SongListsAreWorked }
{}

/// A memory that holds the start of that song's second subtune: its lists in memory, its layout, the voices of its
/// state, and the lines that its first frame uses; and such as don't, by a byte, an address or a line: worked by hand.
/// And what is held of a state where not all voices are run.
pub fn worked_holds()
    ensures lists { ListsAreInMemory }
    ensures layouts { LayoutsAreWorked }
    ensures states { StatesAreHeld }
    ensures kept { KeptAreWorked }
    ensures held { HeldAreWorked }
{}
