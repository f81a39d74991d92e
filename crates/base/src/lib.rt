//! What every layer needs and none of them owns.
//!
//! The refusal when memory runs out, lists that grow, and the definitions and lemmas that have no subject: bytes,
//! limits, the first bad item of a list, and laws of numbers, lists and options.
//!
//! The layer's one contract: a list that grows is seen as a list; what is added stands at its end, and a refusal leaves
//! everything as it was. Types with a limit or a name of their own are made from `Items` in the layers above, which
//! cite lemmas through `proofs/Laws.antt`. It stands on the standard library alone.
#![tactic(auto)]

mod items;
mod no_memory;

pub use items::{ByteList, Items};
pub use no_memory::NoMemory;
