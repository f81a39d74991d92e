//! Sets of small numbers: a mark for each number.

ghost use Rattle.std.specs.Prelude.{◌≡◌, ℕ, ◌<◌, length};
ghost use Rattle.usage.specs.Building.{AreWhole, Adds, AddsAt};

/// A mark for each byte.
pub(crate) type ByteMarks = [bool; 256];

/// For each command, 0 to 15, a mark for each parameter.
pub(crate) type CommandMarks = [[bool; 256]; 16];

/// Marks a number.
pub(crate) fn mark(marks: &mut [bool], n: usize)
    requires { n < length marks.old }
    ensures { Adds (λ k. k ≡ n) marks.old marks.new }
{
    marks[n] = true;
}

/// Marks a command with a parameter.
pub(crate) fn mark_command(commands: &mut CommandMarks, command: u8, parameter: u8)
    requires command { command < 16 }
    requires whole { AreWhole commands.old }
    ensures { AddsAt (λ c d. (command ≡ c) × (parameter ≡ d)) commands.old commands.new }
{
    commands[usize::from(command)][usize::from(parameter)] = true;
}
