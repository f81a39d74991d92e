//! The shapes of which the picture is made.

ghost use Rattle.std.specs.Prelude.{◌≡◌, ◌++◌, map, OnOk};
ghost use Rattle.song_chart.specs.Elements.{element_text};
ghost use Rattle.song_chart.specs.Pieces.{piece_of};
ghost use Rattle.song_chart.specs.Shapes.{text_at, turned_text, box, line, area};

use crate::elements::{Piece, put_element};
use base::{ByteList, NoMemory};

/// Adds a text, of which this place is the start, the middle or the end.
pub(crate) fn put_text(
    out: &mut ByteList,
    x: u64,
    y: u64,
    anchor: &[u8],
    inside: &[Piece],
) -> Result<(), NoMemory>
    ensures { OnOk result (out.new ≡ out.old ++ element_text (text_at x y anchor.now (map piece_of inside.now))) }
{
    put_element(
        out,
        "text",
        &[
            ("x", Piece::Number(x)),
            ("y", Piece::Number(y)),
            ("text-anchor", Piece::Words(anchor)),
        ],
        inside,
    )
}

/// Adds words that run up or down.
pub(crate) fn put_turned_text(
    out: &mut ByteList,
    transform: &[u8],
    words: &[u8],
) -> Result<(), NoMemory>
    ensures { OnOk result (out.new ≡ out.old ++ element_text (turned_text transform.now words.now)) }
{
    put_element(
        out,
        "text",
        &[
            ("transform", Piece::Words(transform)),
            ("text-anchor", Piece::Words(b"middle")),
        ],
        &[Piece::Words(words)],
    )
}

/// Adds a filled box.
pub(crate) fn put_box(
    out: &mut ByteList,
    x: u64,
    y: u64,
    width: u64,
    height: u64,
    colour: &[u8],
) -> Result<(), NoMemory>
    ensures { OnOk result (out.new ≡ out.old ++ element_text (box x y width height colour.now)) }
{
    put_element(
        out,
        "rect",
        &[
            ("x", Piece::Number(x)),
            ("y", Piece::Number(y)),
            ("width", Piece::Number(width)),
            ("height", Piece::Number(height)),
            ("fill", Piece::Words(colour)),
        ],
        &[],
    )
}

/// Adds a line from a place to another, so many pixels wide.
pub(crate) fn put_line<'a>(
    out: &mut ByteList,
    from: (u64, u64),
    to: (u64, u64),
    width: u64,
    colour: &'a [u8],
    dashes: &'a [u8],
) -> Result<(), NoMemory>
    ensures { OnOk result (out.new ≡ out.old ++
        element_text (line from.0 from.1 to.0 to.1 width colour.now dashes.now)) }
{
    put_element(
        out,
        "line",
        &[
            ("x1", Piece::Number(from.0)),
            ("y1", Piece::Number(from.1)),
            ("x2", Piece::Number(to.0)),
            ("y2", Piece::Number(to.1)),
            ("stroke-width", Piece::Number(width)),
            ("stroke", Piece::Words(colour)),
            ("stroke-dasharray", Piece::Words(dashes)),
        ],
        &[],
    )
}

/// Adds what a path goes round, filled.
pub(crate) fn put_area<'a>(
    out: &mut ByteList,
    path: &'a [u8],
    colour: &'a [u8],
) -> Result<(), NoMemory>
    ensures { OnOk result (out.new ≡ out.old ++ element_text (area path.now colour.now)) }
{
    put_element(
        out,
        "path",
        &[("d", Piece::Words(path)), ("fill", Piece::Words(colour))],
        &[],
    )
}
