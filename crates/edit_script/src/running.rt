//! A script, command by command.

ghost use Rattle.std.specs.Prelude.{◌≡◌, ◌⊎◌, Ok, Err, IfErr, OnOk, OnErr};
ghost use Rattle.edit_script.specs.Runs.{after_action, fold_of};
ghost use Rattle.edit_script.specs.Held.{IsNotDone, StopsAt, stop_of};

use crate::{Action, RunFault, RunKind, Script};
use edit_history::{NothingToRedo, NothingToUndo, Session};

/// Does the commands of a script, one after the other.
///
/// # Errors
///
/// The line of the first command that can't be done, and why; out of memory is such a reason. The session holds what
/// the commands before it have made.
pub fn run(session: &mut Session, script: &Script) -> Result<(), RunFault>
    // All commands are done.
    ensures done { OnOk result (fold_of session.old script.now ≡ Ok session.new) }
    // Or one can't be, unless memory runs out.
    ensures stopped { IfErr result (λ fault. (fault.kind ≡ RunKind.NoMemory)
        ⊎ (fold_of session.old script.now ≡ Err (stop_of fault session.new))) }
    // Those before it are done then, and memory runs out at an edit alone.
    ensures held { IfErr result (λ fault. StopsAt fault session.old script.now session.new) }
{
    for command in script.as_slice() {
        if let Err(kind) = act(session, &command.action) {
            return Err(RunFault {
                line: command.line,
                kind,
            });
        }
    }
    Ok(())
}

/// Does what a command says.
///
/// # Errors
///
/// Why it can't be done; or out of memory. The session is as before.
#[tactic(auto, unfolding(crate::proofs::OnTexts::doing_steps))]
fn act(session: &mut Session, action: &Action) -> Result<(), RunKind>
    ensures done { OnOk result (after_action session.old action.now ≡ Ok session.new) }
    ensures refused { IfErr result (λ kind. IsNotDone session.old action.now kind) }
    ensures err { OnErr result (session.new ≡ session.old) }
{
    match action {
        Action::Edit(edit) => match session.edit(edit) {
            Ok(()) => Ok(()),
            Err(fault) => Err(RunKind::of_edit(fault)),
        },
        Action::Undo => match session.undo() {
            Ok(()) => Ok(()),
            Err(NothingToUndo) => Err(RunKind::NothingToUndo),
        },
        Action::Redo => match session.redo() {
            Ok(()) => Ok(()),
            Err(NothingToRedo) => Err(RunKind::NothingToRedo),
        },
    }
}
