//! Rows of tables, and the row of a program that comes next.

ghost use Rattle.std.specs.Prelude.{◌≡◌, ◌+◌, ◌≤◌};
ghost use Rattle.song_model.specs.LookUp.{table_row};
ghost use Rattle.play_model.specs.LookUps.{look_ups_of};
ghost use Rattle.play_model.specs.Helpers.{row_after, next_row};

use song_model::{Song, TableName, TableRow};

/// The row after row `p` of a table; (0, 0) where none is stored.
#[tactic(auto, unfolding(song_model::specs::LookUp::table_row))]
pub(crate) fn following_row(song: &Song, name: TableName, p: u16) -> TableRow
    ensures { result ≡ table_row song.now name (p + 1) }
{
    match song.table(name).as_slice().get(usize::from(p)) {
        Some(row) => *row,
        None => TableRow { left: 0, right: 0 },
    }
}

/// The row that a program comes to after row `p`, 0 to 256: the row after it, but where that is a jump, the
/// row that the jump names.
#[tactic(auto, unfolding(play_model::specs::Helpers::next_row))]
pub(crate) fn next_row(song: &Song, name: TableName, p: u16) -> u8
    requires { p ≤ 256 }
    ensures { result ≡ next_row (look_ups_of song.now) name p }
{
    row_after(following_row(song, name, p), p)
}

/// The row after row `p`, where this one follows it.
fn row_after(following: TableRow, p: u16) -> u8
    requires { p ≤ 256 }
    ensures { result ≡ row_after following p }
{
    if following.left == 0xff {
        following.right
    } else {
        ((p + 1) % 256) as u8
    }
}
