//! Facts about the definitions of this crate, each the contract of a function that does nothing.

ghost use Rattle.edit_history.specs.HistoryLaws.{RedoUndoesUndo, UndoUndoesRedo};
ghost use Rattle.edit_history.specs.WorkedHistories.{HasWhatStands, GoesBackAndForth, EndsAtEachEnd, LetsGoAtAnEdit};

/// Undo and redo lead back to each other's history.
pub fn steps_lead_back()
    ensures redo { RedoUndoesUndo }
    ensures undo { UndoUndoesRedo }
{}

/// A song that gets a pattern, then a subtune; both undone and redone.
#[tactic(auto, unfolding(crate::proofs::Doing::doing_steps))]
pub fn worked_histories()
    ensures song { HasWhatStands }
    ensures steps { GoesBackAndForth }
    ensures ends { EndsAtEachEnd }
    ensures edit { LetsGoAtAnEdit }
{}
