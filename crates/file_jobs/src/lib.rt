//! The jobs that play and pack nothing: a song is checked, shown, copied and edited, two are joined, a PSID file is listed,
//! and a listing is assembled.
//!
//! The layer's one contract: each job ends as `jobs` says that it does (`JobEnds`): at the first of its stages that doesn't
//! pass, or with what it is for done.
//!
//! It stands on `jobs` for what a job is and for the stages that several have, on `command_line` for lines, on `goat_io`
//! for folders, on `gts5` and `song_model` for songs, on `usage` for what one uses, on `edit_history` and `edit_script` for
//! editing it, on `song_script` for its script, on `song_join` for joining two, and on `asm_text` and `asm6502` for listings.
#![tactic(auto)]

/// `asm IN OUT`.
pub mod asm;
/// `check IN`.
pub mod check;
/// `copy IN OUT`.
pub mod copy;
/// `disasm IN OUT`.
pub mod disasm;
/// `edit IN SCRIPT OUT`.
pub mod edit;
/// `join IN SECOND OUT`.
pub mod join;
/// `show IN OUT`.
pub mod show;
