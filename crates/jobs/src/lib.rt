//! The jobs that words ask for: the stages of each, what it does, what became of it, and what stands after its run.
//!
//! The layer's one contract: a job's run ends at the first of its stages that doesn't pass, with that stage's status and
//! line, or it does what the job is for; and what is printed last, with the status, is what became of it. The definitions
//! are those of the top call's clauses, and the laws that follow from them stand here: a run has one outcome, each status
//! comes of its own cause, which songs are packed, and that a packed file that is run prints its song.
//!
//! The jobs that play are done here: a song is traced, and a PSID file is run. Of packing, all but the image is here. The
//! jobs that read a file and play nothing are in `file_jobs`, in `cost_jobs` and in `length_jobs`.
//!
//! It stands on `command_line` for words and lines, on `goat_io` for folders and sinks, on `gts5` and `song_model` for
//! the song, on `edit_history` and `edit_script` for editing it, on `song_script` for its script, on `usage` for what it
//! uses, on `song_costs` for what it costs, on `play_model` for what it sounds like, on `playroutine` for playing it,
//! on `song_pack` for packing it, on `image_parts` for how long its image is, on `faithful` for what an image is to do, on
//! `player_bound` and `bound_text` for how many clock cycles its calls take,
//! on `psid`, `sid_run` and `cpu6502` for PSID files and their calls, on `song_join` for joining songs, on `asm_text` and
//! `asm6502` for listings, and on `song_gen` for songs that are made from numbers.
#![tactic(auto)]

mod calling;
/// Facts about the definitions.
pub mod claims;
mod measuring;
mod packed_files;
mod packed_songs;
mod printing;
mod psid_stages;
mod registers;
/// `run IN SUBTUNE FRAMES`.
pub mod run;
mod second_file;
mod stages;
/// `trace IN SUBTUNE FRAMES`, or with `SKIP SPEED` behind it.
pub mod trace;

pub use measuring::{register_sum, selftest_report, steps_of};
pub use packed_files::{packed_file, raw_file};
pub use packed_songs::{packed_song, short_song, too_large_image};
pub use printing::{print, print_lines, put_message, want_memory};
pub use psid_stages::{read_psid, subtune_of};
pub use second_file::{read_other, read_song_and_script};
pub use stages::{
    INPUT_LIMIT, parts_of, read_file, read_song, read_song_and_bytes, song_of, write_and_tell,
    write_file,
};
