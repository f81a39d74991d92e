//! How many clock cycles each play of a song takes, as a picture: an SVG file.
//!
//! The layer's one contract: `draw` gives the text of one picture (`specs/Picture.antt`), a list of elements that follow
//! from the cycles of the calls alone, and that text is short however many calls there are. Which calls fall into which
//! column is said in `specs/Columns.antt`, how high a column is in `specs/Scale.antt`, and how an element is written in
//! `specs/Elements.antt`.
//!
//! It stands on `base` for lists, and on `itoa` for decimals. Who measures a song and writes the file stands above.
#![tactic(auto)]

mod areas;
/// Facts about the definitions.
pub mod claims;
mod columns;
mod elements;
mod grid;
mod marks;
mod picture;
mod plot;
mod shapes;
mod titles;

pub use base::NoMemory;
pub use columns::{MOST_CALLS, MOST_CYCLES};
pub use picture::{Again, draw};
