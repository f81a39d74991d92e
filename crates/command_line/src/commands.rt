//! The words of each command, and the job that they name.

/// `asm IN OUT`.
pub mod asm;
/// `bound IN OUT SKIP SPEED`, and `bound-check IN CERT SKIP SPEED`.
pub mod bound;
/// `chart IN OUT SUBTUNE CALLS`.
pub mod chart;
/// `check IN`.
pub mod check;
/// `copy IN OUT`.
pub mod copy;
/// `disasm IN OUT`.
pub mod disasm;
/// `edit IN SCRIPT OUT`.
pub mod edit;
/// `help`, or with the first word of a form behind it.
pub mod help;
/// `join IN SECOND OUT`.
pub mod join;
/// `measure IN CALLS`.
pub mod measure;
/// `pack IN OUT psid|raw ADDRESS ZP`, or with `SKIP SPEED` or `SKIP SPEED SYSTEM CHIP` behind it.
pub mod pack;
/// `parts IN SKIP SPEED`.
pub mod parts;
/// `run IN SUBTUNE FRAMES`.
pub mod run;
/// `selftest NUMBER`.
pub mod selftest;
/// `show IN OUT`.
pub mod show;
/// `trace IN SUBTUNE FRAMES`, or with `SKIP SPEED` behind it.
pub mod trace;
/// `version`.
pub mod version;
