//! What `help` and `version` print, line by line. Each line has its line feed.

/// The texts of the forms that take a PSID file or a listing.
pub mod files;
/// The list of all forms, and the texts of the forms that take no file.
pub mod others;
/// The lines that stand in more than one text.
pub mod shared;
/// The texts of the forms that take a song.
pub mod songs;
