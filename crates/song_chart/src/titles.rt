//! What stands around the plot.

ghost use Rattle.std.specs.Prelude.{◌≡◌, ◌++◌, OnOk};
ghost use Rattle.song_chart.specs.Elements.{elements_text};
ghost use Rattle.song_chart.specs.Picture.{calls_word, frame, legend, axis_names};

use crate::elements::{Piece, put_element};
use crate::shapes::{put_box, put_text, put_turned_text};
use base::{ByteList, NoMemory};

/// The colour of what is greatest, which tells from the other one in grey too.
pub(crate) const LIGHT: &[u8] = b"#9ecae1";

/// The colour of means.
pub(crate) const DARK: &[u8] = b"#08519c";

/// Adds the title, the background, and the heading of a subtune with so many calls.
pub(crate) fn put_frame(out: &mut ByteList, subtune: u8, calls: usize) -> Result<(), NoMemory>
    ensures { OnOk result (out.new ≡ out.old ++ elements_text (frame subtune calls)) }
{
    put_element(
        &mut *out,
        "title",
        &[],
        &[Piece::Words(b"Clock cycles of each play call")],
    )?;
    put_box(&mut *out, 0, 0, 960, 540, b"#fff")?;
    put_element(
        out,
        "text",
        &[
            ("x", Piece::Number(80)),
            ("y", Piece::Number(28)),
            ("font-size", Piece::Number(18)),
        ],
        &[
            Piece::Words(b"subtune "),
            Piece::Number(u64::from(subtune)),
            Piece::Words(b": "),
            Piece::Number(calls as u64),
            Piece::Words(calls_word(calls)),
        ],
    )
}

/// The word behind a number of calls.
fn calls_word(calls: usize) -> &'static [u8]
    ensures { result.now ≡ calls_word calls }
{
    if calls == 1 { b" call" } else { b" calls" }
}

/// Adds what the two colours of columns mean.
pub(crate) fn put_legend(out: &mut ByteList) -> Result<(), NoMemory>
    ensures { OnOk result (out.new ≡ out.old ++ elements_text legend) }
{
    put_box(&mut *out, 700, 16, 12, 12, LIGHT)?;
    put_text(&mut *out, 718, 27, b"start", &[Piece::Words(b"greatest")])?;
    put_box(&mut *out, 810, 16, 12, 12, DARK)?;
    put_text(out, 828, 27, b"start", &[Piece::Words(b"mean")])
}

/// Adds the names of the axes.
pub(crate) fn put_axis_names(out: &mut ByteList) -> Result<(), NoMemory>
    ensures { OnOk result (out.new ≡ out.old ++ elements_text axis_names) }
{
    put_turned_text(&mut *out, b"translate(14 270) rotate(-90)", b"clock cycles")?;
    put_turned_text(&mut *out, b"translate(942 270) rotate(90)", b"raster lines")?;
    put_text(out, 480, 500, b"middle", &[Piece::Words(b"calls")])
}
