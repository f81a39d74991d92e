//! What is told of the calls of a column.

ghost use Rattle.std.specs.Prelude.{◌≡◌, ◌<◌, length};
ghost use Rattle.song_chart.specs.Columns.{AreCalls, greatest, mean, cycles_shown};

/// The most calls that are drawn.
pub const MOST_CALLS: usize = 100_000;

/// The most clock cycles of a call.
pub const MOST_CYCLES: u32 = 1_400_000;

/// What is drawn of each column.
#[derive(Clone, Copy)]
pub(crate) enum Shown {
    /// The most clock cycles of its calls.
    Greatest,
    /// Their mean, rounded down.
    Mean,
}

/// The most clock cycles of these calls; 0 where there are none.
pub(crate) fn greatest(calls: &[u32]) -> u32
    ensures { result ≡ greatest calls.now }
{
    let mut most = 0;
    for cycles in calls {
        most = most.max(*cycles);
    }
    most
}

/// The mean of the clock cycles of these calls, rounded down.
fn mean(calls: &[u32]) -> u64
    requires some { 0 < length calls.now }
    requires calls { AreCalls calls.now }
    ensures { result ≡ mean calls.now }
{
    let mut sum = 0;
    for cycles in calls {
        sum += u64::from(*cycles);
    }
    sum / calls.len() as u64
}

/// The clock cycles that are shown of a column with these calls.
pub(crate) fn cycles_shown(shown: Shown, calls: &[u32]) -> u64
    requires some { 0 < length calls.now }
    requires calls { AreCalls calls.now }
    ensures { result ≡ cycles_shown shown calls.now }
{
    match shown {
        Shown::Greatest => u64::from(greatest(calls)),
        Shown::Mean => mean(calls),
    }
}
