//! The command line: the words of a run as a job, and the lines and statuses that it answers.
//!
//! The layer's one contract: `parse_words` answers the one job that the words name, or that they are of no form; and a
//! line that is given room for the words before a run begins is told without taking memory.
//! A `Message` is a status with the pieces of its line, and a job ends with a `Report` or a `Refusal`.
//!
//! It knows no song and no player: it stands on `play_model` for how a song is played, on `packed_form` for where an
//! image may stand, on `goat_io` for a sink's faults, on `base`, and on `arrayvec`, `hex` and `itoa`. See
//! `docs/command-line.md`.
#![tactic(auto)]

mod arguments;
mod chip;
/// Facts about the definitions.
pub mod claims;
mod commands;
/// What `help` and `version` print.
pub mod help;
mod line;
mod message;
mod refusal;
mod status;
mod topics;
mod words;

pub use arguments::{CHART_LIMIT, FRAME_LIMIT, MEASURE_LIMIT, SUBTUNE_LIMIT};
pub use chip::Chip;
pub use line::Line;
pub use message::{Message, Piece};
pub use refusal::{Refusal, Report};
pub use status::Status;
pub use topics::{Topic, version_lines};
pub use words::{Job, USAGE, WordsFault, parse_words};
