//! Why a text is no script.

ghost use Rattle.std.specs.Prelude.{◌≡◌};

use base::NoMemory;
use thiserror::Error;

/// Why a text isn't read as a script.
#[derive(Clone, Copy, Debug, PartialEq, Eq, Error)]
pub enum ScriptFault {
    /// The first line, counted from 1, that neither says nothing nor spells what is to be done.
    #[error("script line {line}: bad line")]
    BadLine { line: u32 },
    /// Out of memory.
    #[error("no memory")]
    NoMemory,
}

impl From<NoMemory> for ScriptFault {
    ghost use Rattle.edit_script.specs.declared.faults.ScriptFault.TheVariants.{NoMemory as no_memory};

    ghost from_gives = { λ _ fault. fault ≡ no_memory };

    fn from(_e: NoMemory) -> ScriptFault {
        ScriptFault::NoMemory
    }
}
