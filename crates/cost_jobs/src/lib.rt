//! The jobs that tell what a packed song costs: its bytes and what asks for them, and the clock cycles that its calls take
//! at most.
//!
//! The layer's one contract: each job ends as `jobs` says that it does (`JobEnds`): at the first of its stages that doesn't
//! pass, or with what it is for done. What a part costs, and which numbers bound a call, is said in `song_costs` and in
//! `player_bound`.
//!
//! It stands on `jobs` for what a job is and for the stages that several have, on `command_line` for lines, on `goat_io`
//! for folders and sinks, on `usage` and `kept_lines` for what a song uses and asks of its player, on `image_parts` for
//! whose each byte of a player is, on `song_costs` for what each costs and where it is needed, and on `player_bound` and
//! `bound_text` for the cycles of its calls.
#![tactic(auto)]

/// `bound IN OUT SKIP SPEED`, and `bound-check IN CERT SKIP SPEED`.
pub mod bound;
mod cost_lines;
mod part_costs;
/// `parts IN SKIP SPEED`.
pub mod parts;
