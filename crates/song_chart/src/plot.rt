//! Where calls and clock cycles lie in the plot.

ghost use Rattle.std.specs.Prelude.{◌≡◌, ◌≤◌, ◌<◌, ◌^◌};
ghost use Rattle.song_chart.specs.Columns.{AreCalls};
ghost use Rattle.song_chart.specs.Scale.{step_for};
ghost use Rattle.song_chart.specs.Plot.{plot_of, top_of, height_of, edge_of, columns_to};

use crate::columns::greatest;

/// The left end of the plot, in pixels from the left.
pub(crate) const LEFT: u64 = 80;

/// Its right end.
pub(crate) const RIGHT: u64 = 880;

/// Its top, in pixels from the top.
pub(crate) const TOP: u64 = 60;

/// Its foot.
pub(crate) const FOOT: u64 = 480;

/// The most columns: a pixel each.
const MOST_COLUMNS: usize = 800;

/// Clock cycles of a raster line.
pub(crate) const LINE: u64 = 63;

/// Raster lines from a grid line to the next.
const STEPS: [u64; 12] = [1, 2, 5, 10, 20, 50, 100, 200, 500, 1000, 2000, 5000];

/// How calls and clock cycles lie in the plot.
#[derive(Clone, Copy)]
pub(crate) struct Plot {
    /// How many calls each column holds, but for the last one; 1 or more.
    pub(crate) per_column: usize,
    /// How many columns there are: at most 800.
    pub(crate) columns: usize,
    /// How many raster lines lie from a grid line to the next.
    pub(crate) step: u64,
}

impl Plot {
    /// The plot of calls that take these clock cycles.
    pub(crate) fn of(cycles: &[u32]) -> Self
        requires { AreCalls cycles.now }
        ensures { result ≡ plot_of cycles.now }
    {
        let per_column = cycles.len().div_ceil(MOST_COLUMNS).max(1);
        Plot {
            per_column,
            columns: cycles.len().div_ceil(per_column),
            step: step_for(u64::from(greatest(cycles))),
        }
    }

    /// How many clock cycles the top of the plot stands for.
    pub(crate) fn top(self) -> u64
        requires { self.step ≤ 5000 }
        ensures { result ≡ top_of self }
    {
        6 * self.step * LINE
    }

    /// How many pixels these clock cycles are high.
    pub(crate) fn height(self, cycles: u64) -> u64
        requires step { self.step ≤ 5000 }
        requires some { 1 ≤ self.step }
        requires fits { cycles ≤ top_of self }
        ensures { result ≡ height_of self cycles }
    {
        cycles * (FOOT - TOP) / self.top()
    }

    /// Where the first columns, so many, end: pixels from the left.
    pub(crate) fn edge(self, columns: usize) -> u64
        requires { columns < 2 ^ 40 }
        ensures { result ≡ edge_of self columns }
    {
        LEFT + columns as u64 * (RIGHT - LEFT) / self.columns.max(1) as u64
    }

    /// How many columns the first calls, so many, take.
    pub(crate) fn columns_to(self, calls: usize) -> usize
        requires { 0 < self.per_column }
        ensures { result ≡ columns_to self calls }
    {
        calls.div_ceil(self.per_column)
    }
}

/// The first step with which six steps hold these clock cycles.
fn step_for(most: u64) -> u64
    ensures { result ≡ step_for most }
{
    for step in STEPS {
        if most <= 6 * step * LINE {
            return step;
        }
    }
    5000
}
