//! The lines of an image in front of its lists: two jumps, the variables, and the code of the two entrances.
//!
//! The layer's one contract: with any lists behind them, which name the labels that the blocks read, the lines assemble
//! at each origin at which they fit; the variables stand behind the jumps, each at the place that a plan says, and the
//! lists behind the code; from `$0800` up to `$D000` both entrances are well entered, where the blocks write nowhere in
//! the entrances' lines and nowhere on the stack.
//!
//! It stands on `player_text` for the blocks, on `scope_calls` for what an entrance is, and on `asm6502` for listings.
//! See `docs/player-blocks.md`.
#![tactic(auto)]

pub mod claims;
pub mod labels;
mod listing;
mod room;

pub use asm6502::Listing;
pub use base::NoMemory;
pub use listing::code_listing;
pub use player_text::texts::Start;
pub use room::code_size;
pub use scope_lines::Conditions;
