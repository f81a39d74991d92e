//! The first row of the wave table.

ghost use Rattle.std.specs.Prelude.{◌≡◌, ◌↔◌, IsTrue, [], ◌∷◌, IfSome, IfNone};
ghost use Rattle.song_model.specs.declared.tables.TableName.TheVariants.{Wave};
ghost use Rattle.play_model.specs.Reached.{IsReached};
ghost use Rattle.usage.specs.Marks.{AreMarks};
ghost use Rattle.song_places.specs.Places.{HasWaveRowAt};
ghost use Rattle.song_places.specs.Search.{meant, IsFirstUnder, IsNowhereUnder};

use crate::needs::Wanted;
use crate::places::Place;
use song_model::{Song, TableName};

/// Whether programs come to a row and it is wanted.
fn is_wanted(song: &Song, wanted: Wanted, reached: &[bool; 256], row: u8) -> bool
    requires { AreMarks (IsReached song.now Wave) reached.now }
    ensures { IsTrue result ↔ HasWaveRowAt song.now row (meant song.now wanted).wave_row }
{
    reached[usize::from(row)] && wanted.is_wave_row(song, song.row_or_zero(TableName::Wave, row))
}

/// The first row that programs come to and that is wanted.
pub(crate) fn first_wave_row(song: &Song, wanted: Wanted, reached: &[bool; 256]) -> Option<Place>
    requires { AreMarks (IsReached song.now Wave) reached.now }
    ensures found { IfSome result (IsFirstUnder song.now (meant song.now wanted) (4 ∷ [])) }
    ensures none { IfNone result (IsNowhereUnder song.now (meant song.now wanted) (4 ∷ [])) }
{
    for n in 0..256u16 {
        if is_wanted(song, wanted, reached, n as u8) {
            return Some(Place::InWaveTable { row: n as u8 });
        }
    }
    None
}
