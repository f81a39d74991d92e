//! Facts about the player's parts, each the contract of a function that does nothing.

ghost use Rattle.std.specs.Prelude.{ℕ};
ghost use Rattle.play_model.specs.State.{Playing};
ghost use Rattle.scopes.specs.Desk.{Desk, Layout};
ghost use Rattle.idle_parts.specs.Idle.{HoldsVoice};
ghost use Rattle.idle_parts.specs.IdleParts.{TemposIdle, CommandsIdle, ProgramsIdle, EffectsIdle};
ghost use Rattle.idle_parts.specs.IdleParts.{FetchesIdle, FactsIdle, FiltersIdle};
ghost use Rattle.idle_parts.specs.LeftOut.{PartsCanBeLeftOut};
ghost use Rattle.idle_parts.specs.Fronts.{FrontsEnd, StoredIsLow, CommandsAreFound, EffectsAreFound};
ghost use Rattle.idle_parts.specs.Fronts.{NotesAreFound, LentAreFound, PlaysAreFound};
ghost use Rattle.idle_parts.specs.PartList.{PartsAreThese};
ghost use Rattle.idle_parts.specs.Places.{PartsAreComeTo, OnceIsComeTo, RowsLeave, SlidesLeave, RowsEnd};
ghost use Rattle.idle_parts.specs.KeptBytes.{FilterLoads, VoiceLoads, StoresIdle, OrdersIdle};
ghost use Rattle.idle_parts.specs.KeptBytes.{ReadWhereKept, PairsAreKept};
ghost use Rattle.player_text.specs.declared.texts.Start.{Start};
ghost use Rattle.idle_parts.specs.NeededRows.{RowsAreNeeded};
ghost use Rattle.idle_parts.specs.WorkedParts.{PartsAreWorked};

/// Where a memory holds a state that keeps clear of a part, the part's lines come to their own end, and leave each
/// byte, X, and the registers that are named.
pub fn parts_are_idle()
    ensures tempos { TemposIdle }
    ensures commands { CommandsIdle }
    ensures programs { (layout : Layout) (rows voice : ℕ) (s : Playing) (desk : Desk) →
        HoldsVoice layout rows voice s desk → ProgramsIdle layout rows voice s desk }
    ensures effects { (layout : Layout) (rows voice : ℕ) (s : Playing) (desk : Desk) →
        HoldsVoice layout rows voice s desk → EffectsIdle layout rows voice s desk }
    ensures fetches { (layout : Layout) (rows voice : ℕ) (s : Playing) (desk : Desk) →
        HoldsVoice layout rows voice s desk → FetchesIdle layout voice desk }
    ensures facts { (layout : Layout) (rows voice : ℕ) (s : Playing) (desk : Desk) →
        HoldsVoice layout rows voice s desk → FactsIdle layout rows voice s desk }
    ensures filters { FiltersIdle }
{}

/// Which parts there are, and which lines lead to those that no clear state comes to.
pub fn parts_have_places()
    ensures parts { PartsAreThese }
    ensures leaves { PartsAreComeTo }
    ensures once { OnceIsComeTo }
    ensures slides { (layout : Layout) (desk : Desk) → SlidesLeave layout desk }
    ensures rows { (layout : Layout) (rows voice : ℕ) (s : Playing) (desk : Desk) →
        HoldsVoice layout rows voice s desk → RowsLeave layout rows voice s desk }
    ensures rows_end { (layout : Layout) (rows voice : ℕ) (s : Playing) (desk : Desk) →
        HoldsVoice layout rows voice s desk → RowsEnd layout rows voice s desk }
{}

/// What the lines in front of the parts find, from memories that hold a state: that they come to their end there, and
/// what is in A, Y and the carry then.
pub fn parts_are_met()
    ensures fronts { (layout : Layout) (rows voice : ℕ) (s : Playing) (desk : Desk) →
        HoldsVoice layout rows voice s desk → FrontsEnd layout rows voice s desk }
    ensures stored { StoredIsLow }
    ensures commands { CommandsAreFound }
    ensures effects { EffectsAreFound }
    ensures notes { NotesAreFound }
    ensures lent { LentAreFound }
    ensures plays { PlaysAreFound }
{}

/// Whatever is kept besides what a frame uses, the frame's call leaves the same registers, and the same state of each
/// voice that both run.
pub fn parts_can_be_left_out()
    ensures { PartsCanBeLeftOut }
{}

/// Of the bytes that are kept under a condition alone: the lines that load one are idle where it holds what it would
/// stand for without them; those that store one change nothing else, and a choice's two sides leave the same but what
/// one of them stores, too; those that take an orderlist's address leave it where it stands already; each that reads
/// one stands under its condition, or under another that keeps it; and whatever a song asks for, that one is held with
/// the other.
pub fn bytes_can_be_left_out()
    ensures filter { FilterLoads }
    ensures voice { VoiceLoads }
    ensures stores { StoresIdle }
    ensures orders { OrdersIdle }
    ensures reads { ReadWhereKept }
    ensures pairs { PairsAreKept }
{}

/// Each condition under which a variable has a byte is one that some line asks for, with what is none.
pub fn conditions_are_needed()
    ensures { (start : Start) → RowsAreNeeded start }
{}

/// Lines that do something, or change a register.
#[tactic(auto, using(crate::proofs::WorkedParts::parts_are_worked))]
pub fn worked_parts()
    ensures { PartsAreWorked }
{}
