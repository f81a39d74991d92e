//! The labels of the code: those of its two entrances.
//!
//! They stand behind the labels of the variables and of the lists, which are below 1,024.

/// The code that begins a subtune.
pub const INIT_CODE: u16 = 1024;
/// The code that plays a frame.
pub const PLAY_CODE: u16 = 1025;
