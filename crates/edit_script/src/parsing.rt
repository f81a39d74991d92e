//! A text, line by line.

ghost use Rattle.std.specs.Prelude.{◌≡◌, ◌≤◌, ◌⊎◌, ℕ, List, length, Ok, Err, IfOk, IfErr, OnOk, OnErr};
ghost use Rattle.edit_script.specs.declared.commands.Command.{Command as Kept};
ghost use Rattle.edit_script.specs.Spells.{IsLine};
ghost use Rattle.edit_script.specs.Scripts.{IsScript, IsFirstBadLine};
ghost use Rattle.edit_script.specs.Answers.{IsAnswer, Adds};

use crate::lines::{says_nothing, split_line};
use crate::words::action_of;
use crate::{Command, Script, ScriptFault};
use std::alloc::Global;

/// The most bytes of a script.
pub const MOST_BYTES: usize = 1_048_576;

/// The commands of a script.
///
/// # Errors
///
/// `BadLine` with the first line that is none; or out of memory.
pub fn parse(alloc: Global, text: &[u8]) -> Result<Script, ScriptFault>
    requires { length text.now ≤ MOST_BYTES }
    // A script that is answered is the text's.
    ensures found { IfOk result (IsScript text.now) }
    // The script of a text that is one is answered.
    ensures only { (commands : List Kept) → IsScript text.now commands → IsAnswer result (Ok commands) }
    // A bad line that is answered is the first one.
    ensures bad_line { IfErr result (λ fault. (fault ≡ ScriptFault.NoMemory)
        ⊎ ((line : ℕ) × (fault ≡ ScriptFault.BadLine line) × IsFirstBadLine text.now line)) }
    // Where there is a bad line the first one is answered.
    ensures exact { (line : ℕ) → IsFirstBadLine text.now line →
        IsAnswer result (Err (ScriptFault.BadLine line)) }
{
    let mut script = Script::new(alloc);
    let mut left = text;
    let mut number = 0;
    while !left.is_empty() {
        let (line, rest) = split_line(left);
        number += 1;
        add_line(&mut script, number, line)?;
        left = rest;
    }
    Ok(script)
}

/// Adds the command of the line with this number to a script, where the line has one.
///
/// # Errors
///
/// `BadLine` where it is none; or out of memory. The script is as before.
fn add_line(script: &mut Script, number: u32, line: &[u8]) -> Result<(), ScriptFault>
    ensures added { OnOk result (Adds number line.now script.old script.new) }
    ensures bad_line { IfErr result (λ fault. (fault ≡ ScriptFault.NoMemory)
        ⊎ ((fault ≡ ScriptFault.BadLine number) × ¬ IsLine line.now)) }
    ensures err { OnErr result (script.new ≡ script.old) }
{
    if says_nothing(line) {
        return Ok(());
    }
    match action_of(line) {
        Some(action) => {
            script.push(Command {
                line: number,
                action,
            })?;
            Ok(())
        }
        None => Err(ScriptFault::BadLine { line: number }),
    }
}
