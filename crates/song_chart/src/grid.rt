//! The grid.

ghost use Rattle.std.specs.Prelude.{◌≡◌, ◌≤◌, ◌++◌, OnOk};
ghost use Rattle.song_chart.specs.Elements.{elements_text};
ghost use Rattle.song_chart.specs.Picture.{grid_line, grid};

use crate::elements::Piece;
use crate::plot::{FOOT, LEFT, LINE, RIGHT};
use crate::shapes::{put_line, put_text};
use base::{ByteList, NoMemory};

/// Adds a grid line, counted from 0 at the foot, with its clock cycles and its raster lines.
fn put_grid_line(out: &mut ByteList, step: u64, place: u64) -> Result<(), NoMemory>
    requires step { step ≤ 5000 }
    requires place { place ≤ 6 }
    ensures { OnOk result (out.new ≡ out.old ++ elements_text (grid_line step place)) }
{
    let y = FOOT - 70 * place;
    let lines = place * step;
    put_line(&mut *out, (LEFT, y), (RIGHT, y), 1, b"#ccc", b"none")?;
    put_text(
        &mut *out,
        LEFT - 8,
        y + 5,
        b"end",
        &[Piece::Number(lines * LINE)],
    )?;
    put_text(out, RIGHT + 8, y + 5, b"start", &[Piece::Number(lines)])
}

/// Adds the grid: seven lines, six steps apart.
pub(crate) fn put_grid(out: &mut ByteList, step: u64) -> Result<(), NoMemory>
    requires { step ≤ 5000 }
    ensures { OnOk result (out.new ≡ out.old ++ elements_text (grid step)) }
{
    for place in 0..7 {
        put_grid_line(&mut *out, step, place)?;
    }
    Ok(())
}
