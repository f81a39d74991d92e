//! What stands at calls: the numbers of the first and the last, the dearest, and where the song begins again.

ghost use Rattle.std.specs.Prelude.{◌≡◌, ◌≤◌, ◌<◌, ◌++◌, ◌==◌, IfOk, OnOk, position};
ghost use Rattle.song_chart.specs.Columns.{AreCalls, greatest};
ghost use Rattle.song_chart.specs.Plot.{plot_of, top_of};
ghost use Rattle.song_chart.specs.Elements.{elements_text};
ghost use Rattle.song_chart.specs.Picture.{call_numbers, anchor_at, dearest, triangle, middle_of, mark_at, mark_of};
ghost use Rattle.song_chart.specs.Picture.{turn, again_words, again_shown};

use crate::columns::{MOST_CALLS, greatest};
use crate::elements::{Piece, put_pieces};
use crate::picture::Again;
use crate::plot::{FOOT, LEFT, Plot, RIGHT, TOP};
use crate::shapes::{put_area, put_line, put_text};
use base::{ByteList, NoMemory};
use std::alloc::Global;

/// Adds the numbers of the first call and of the last.
#[tactic(auto, unfolding(crate::specs::Picture::call_numbers))]
pub(crate) fn put_call_numbers(out: &mut ByteList, calls: usize) -> Result<(), NoMemory>
    ensures { OnOk result (out.new ≡ out.old ++ elements_text (call_numbers calls)) }
{
    if calls == 0 {
        return Ok(());
    }
    put_text(&mut *out, LEFT, 500, b"start", &[Piece::Number(1)])?;
    put_text(out, RIGHT, 500, b"end", &[Piece::Number(calls as u64)])
}

/// The place of the first call with so many clock cycles.
fn place_of(cycles: &[u32], most: u32) -> Option<usize>
    ensures { result ≡ position (λ call. call == most) cycles.now }
{
    cycles.iter().position(|call| *call == most)
}

/// Which part of a text at a pixel is there, so that it stays in the picture.
fn anchor_at(x: u64) -> &'static [u8]
    ensures { result.now ≡ anchor_at x }
{
    if x < 300 {
        b"start"
    } else if x > 660 {
        b"end"
    } else {
        b"middle"
    }
}

/// The path around a triangle whose tip is at a place.
#[tactic(auto, unfolding(crate::specs::Picture::triangle))]
fn triangle(alloc: Global, x: u64, y: u64) -> Result<ByteList, NoMemory>
    ensures { IfOk result (λ path. path ≡ triangle x y) }
{
    let mut path = ByteList::new(alloc);
    put_pieces(
        &mut path,
        &[
            Piece::Words(b"M"),
            Piece::Number(x),
            Piece::Words(b" "),
            Piece::Number(y),
            Piece::Words(b"l-5 -8h10Z"),
        ],
    )?;
    Ok(path)
}

/// The middle of the column of the call at a place.
fn middle_of(plot: Plot, place: usize) -> u64
    requires some { 0 < plot.per_column }
    requires place { place < MOST_CALLS }
    ensures { result ≡ middle_of plot place }
{
    let column = place / plot.per_column;
    (plot.edge(column) + plot.edge(column + 1)) / 2
}

/// Adds a mark at a pixel above so many clock cycles, with the call's number, counted from 1.
#[tactic(auto, unfolding(crate::specs::Picture::mark_at))]
fn put_mark(
    alloc: Global,
    out: &mut ByteList,
    plot: Plot,
    x: u64,
    cycles: u64,
    call: usize,
) -> Result<(), NoMemory>
    requires step { plot.step ≤ 5000 }
    requires some { 1 ≤ plot.step }
    requires fits { cycles ≤ top_of plot }
    ensures { OnOk result (out.new ≡ out.old ++ elements_text (mark_at x plot cycles call)) }
{
    let height = plot.height(cycles);
    let path = triangle(alloc, x, FOOT - 2 - height)?;
    put_area(&mut *out, path.as_slice(), b"#000")?;
    put_text(
        out,
        x,
        FOOT - 14 - height,
        anchor_at(x),
        &[
            Piece::Number(cycles),
            Piece::Words(b" in call "),
            Piece::Number(call as u64),
        ],
    )
}

/// Marks the dearest call, if there is one.
pub(crate) fn put_dearest(
    alloc: Global,
    out: &mut ByteList,
    plot: Plot,
    cycles: &[u32],
) -> Result<(), NoMemory>
    requires calls { AreCalls cycles.now }
    requires plot { plot ≡ plot_of cycles.now }
    ensures { OnOk result (out.new ≡ out.old ++
        elements_text (mark_of plot (greatest cycles.now) (dearest cycles.now))) }
{
    let most = greatest(cycles);
    match place_of(cycles, most) {
        None => Ok(()),
        Some(place) => put_mark(
            alloc,
            out,
            plot,
            middle_of(plot, place),
            u64::from(most),
            place + 1,
        ),
    }
}

/// Adds a dashed line where the column of a call ends, if the call is one of those that are drawn.
#[tactic(auto, unfolding(crate::specs::Picture::turn))]
fn put_turn(
    out: &mut ByteList,
    plot: Plot,
    calls: usize,
    call: usize,
    colour: &[u8],
    dashes: &[u8],
) -> Result<(), NoMemory>
    requires some { 0 < plot.per_column }
    requires few { calls ≤ MOST_CALLS }
    ensures { OnOk result (out.new ≡
        out.old ++ elements_text (turn plot calls call colour.now dashes.now)) }
{
    if call > calls {
        return Ok(());
    }
    let x = plot.edge(plot.columns_to(call));
    put_line(out, (x, TOP), (x, FOOT), 2, colour, dashes)
}

/// Says where the song begins again.
fn put_again_words(out: &mut ByteList, again: Again) -> Result<(), NoMemory>
    ensures { OnOk result (out.new ≡ out.old ++ elements_text (again_words again)) }
{
    put_text(
        out,
        480,
        524,
        b"middle",
        &[
            Piece::Words(b"repeats from "),
            Piece::Number(u64::from(again.from)),
            Piece::Words(b" after "),
            Piece::Number(u64::from(again.length)),
        ],
    )
}

/// Adds where the song begins again, if it is known.
pub(crate) fn put_again(
    out: &mut ByteList,
    plot: Plot,
    calls: usize,
    again: Option<Again>,
) -> Result<(), NoMemory>
    requires some { 0 < plot.per_column }
    requires few { calls ≤ MOST_CALLS }
    ensures { OnOk result (out.new ≡ out.old ++ elements_text (again_shown plot calls again)) }
{
    let Some(again) = again else {
        return Ok(());
    };
    let from = again.from as usize;
    put_turn(&mut *out, plot, calls, from, b"#888", b"2 4")?;
    let end = from + again.length as usize;
    put_turn(&mut *out, plot, calls, end, b"#d95f02", b"6 4")?;
    put_again_words(out, again)
}
