//! The picture of a song's calls.

ghost use Rattle.std.specs.Prelude.{◌≡◌, ◌≤◌, length, All, IfOk};
ghost use Rattle.song_chart.specs.Columns.{AreCalls};
ghost use Rattle.song_chart.specs.Elements.{elements_text};
ghost use Rattle.song_chart.specs.Picture.{picture, chart_text};

use crate::areas::put_areas;
use crate::columns::{MOST_CALLS, MOST_CYCLES};
use crate::elements::{Piece, put_element};
use crate::grid::put_grid;
use crate::marks::{put_again, put_call_numbers, put_dearest};
use crate::plot::Plot;
use crate::titles::{put_axis_names, put_frame, put_legend};
use base::{ByteList, NoMemory};
use std::alloc::Global;

/// Where a song begins again: the calls after `from + length` do what those after `from` do.
#[derive(Clone, Copy, Debug, PartialEq, Eq)]
pub struct Again {
    /// How many calls come before it; 0 or more.
    pub from: u32,
    /// After how many calls more it does so; 1 or more.
    pub length: u32,
}

/// The SVG picture of a subtune's calls, of which each takes so many clock cycles, and where the song begins again, if that is
/// known.
///
/// The subtune's number is told as it is given.
///
/// # Errors
///
/// Out of memory.
pub fn draw(
    alloc: Global,
    subtune: u8,
    cycles: &[u32],
    again: Option<Again>,
) -> Result<ByteList, NoMemory>
    requires few { length cycles.now ≤ MOST_CALLS }
    requires short { All (λ call. call ≤ MOST_CYCLES) cycles.now }
    ensures text { IfOk result (λ text. text ≡ chart_text subtune cycles.now again) }
    ensures short { IfOk result (λ text. length text ≤ 65536) }
{
    let elements = elements_of(alloc, subtune, cycles, again)?;
    let mut out = ByteList::new(alloc);
    put_element(
        &mut out,
        "svg",
        &[
            ("xmlns", Piece::Words(b"http://www.w3.org/2000/svg")),
            ("viewBox", Piece::Words(b"0 0 960 540")),
            ("width", Piece::Number(960)),
            ("height", Piece::Number(540)),
            ("font-family", Piece::Words(b"sans-serif")),
            ("font-size", Piece::Number(14)),
            ("shape-rendering", Piece::Words(b"crispEdges")),
        ],
        &[Piece::Words(b"\n"), Piece::Words(elements.as_slice())],
    )?;
    Ok(out)
}

/// The text of the picture's elements.
fn elements_of(
    alloc: Global,
    subtune: u8,
    cycles: &[u32],
    again: Option<Again>,
) -> Result<ByteList, NoMemory>
    requires { AreCalls cycles.now }
    ensures { IfOk result (λ text. text ≡ elements_text (picture subtune cycles.now again)) }
{
    let plot = Plot::of(cycles);
    let mut out = ByteList::new(alloc);
    put_frame(&mut out, subtune, cycles.len())?;
    put_legend(&mut out)?;
    put_axis_names(&mut out)?;
    put_grid(&mut out, plot.step)?;
    put_areas(alloc, &mut out, plot, cycles)?;
    put_call_numbers(&mut out, cycles.len())?;
    put_dearest(alloc, &mut out, plot, cycles)?;
    put_again(&mut out, plot, cycles.len(), again)?;
    Ok(out)
}
