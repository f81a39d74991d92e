//! Columns.

ghost use Rattle.std.specs.Prelude.{◌≡◌, ◌≤◌, ◌<◌, ◌++◌, IfOk, OnOk};
ghost use Rattle.song_chart.specs.Columns.{AreCalls};
ghost use Rattle.song_chart.specs.Plot.{plot_of, top_of};
ghost use Rattle.song_chart.specs.Elements.{elements_text};
ghost use Rattle.song_chart.specs.Picture.{column_path, columns_path, areas};

use crate::columns::{MOST_CALLS, Shown, cycles_shown};
use crate::elements::{Piece, put_pieces};
use crate::plot::{FOOT, Plot};
use crate::shapes::put_area;
use crate::titles::{DARK, LIGHT};
use base::{ByteList, NoMemory};
use std::alloc::Global;

/// Adds the way of a path over a column.
#[tactic(auto, unfolding(crate::specs::Picture::column_path))]
fn put_column(out: &mut ByteList, plot: Plot, cycles: u64, place: usize) -> Result<(), NoMemory>
    requires step { plot.step ≤ 5000 }
    requires some { 1 ≤ plot.step }
    requires fits { cycles ≤ top_of plot }
    requires place { place < MOST_CALLS }
    ensures { OnOk result (out.new ≡ out.old ++ column_path plot cycles place) }
{
    put_pieces(
        out,
        &[
            Piece::Words(b"V"),
            Piece::Number(FOOT - plot.height(cycles)),
            Piece::Words(b"H"),
            Piece::Number(plot.edge(place + 1)),
        ],
    )
}

/// The path around all columns.
fn columns_path(
    alloc: Global,
    shown: Shown,
    plot: Plot,
    cycles: &[u32],
) -> Result<ByteList, NoMemory>
    requires calls { AreCalls cycles.now }
    requires plot { plot ≡ plot_of cycles.now }
    ensures { IfOk result (λ path. path ≡ columns_path shown plot cycles.now) }
{
    let mut path = ByteList::new(alloc);
    path.extend(b"M80 480")?;
    let mut place = 0;
    for calls in cycles.chunks(plot.per_column) {
        put_column(&mut path, plot, cycles_shown(shown, calls), place)?;
        place += 1;
    }
    path.extend(b"V480Z")?;
    Ok(path)
}

/// Adds the columns: what is greatest, and the means over it.
pub(crate) fn put_areas(
    alloc: Global,
    out: &mut ByteList,
    plot: Plot,
    cycles: &[u32],
) -> Result<(), NoMemory>
    requires calls { AreCalls cycles.now }
    requires plot { plot ≡ plot_of cycles.now }
    ensures { OnOk result (out.new ≡ out.old ++ elements_text (areas plot cycles.now)) }
{
    let greatest = columns_path(alloc, Shown::Greatest, plot, cycles)?;
    put_area(&mut *out, greatest.as_slice(), LIGHT)?;
    let means = columns_path(alloc, Shown::Mean, plot, cycles)?;
    put_area(out, means.as_slice(), DARK)
}
