//! The command that runs where a pattern begins.

use packed_form::Command;

/// Command 0 with parameter 0.
pub(crate) const NO_COMMAND: Command = Command {
    number: 0,
    param: 0,
};
