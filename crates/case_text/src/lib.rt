//! How files of cases are spelled, and how cases are counted: lines of words, bytes in hexadecimal digits, tallies.
//!
//! The layer's one contract: reading ends on every text, a sum is the SHA-256 of the bytes, a line whose fact doesn't
//! hold is never met, and a case that differs is never counted as one that agrees. What a line spells is said by no
//! clause: the cases that must differ show it.
//!
//! It stands on `hex` for digits and on `sha2` for sums, and knows nothing of songs or of the program.
#![tactic(auto)]

mod bytes;
mod line;
mod sums;
mod tally;
mod wrong;

pub use bytes::{Names, add_bytes, bytes_of};
pub use line::{first_word, look_up, number_of, words_of};
pub use sums::{has_sum, sum_of};
pub use tally::Tally;
pub use wrong::{Wrong, holds};
