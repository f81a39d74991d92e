//! The first instrument.

ghost use Rattle.std.specs.Prelude.{◌≡◌, ◌<◌, ◌↔◌, IsTrue, [], ◌∷◌, IfSome, IfNone};
ghost use Rattle.play_model.specs.Used.{IsUsedInstrument};
ghost use Rattle.usage.specs.Marks.{AreMarks};
ghost use Rattle.song_places.specs.Places.{HasInstrumentAt};
ghost use Rattle.song_places.specs.Search.{meant, IsFirstUnder, IsNowhereUnder};

use crate::needs::Wanted;
use crate::places::Place;
use song_model::Song;

/// Whether an instrument is used and wanted.
fn is_wanted(song: &Song, wanted: Wanted, used: &[bool; 64], instrument: u8) -> bool
    requires used { AreMarks (IsUsedInstrument song.now) used.now }
    requires inside { instrument < 64 }
    ensures { IsTrue result ↔
        HasInstrumentAt song.now instrument (meant song.now wanted).instrument }
{
    used[usize::from(instrument)] && wanted.is_instrument(song, &song.instrument(instrument))
}

/// The first used instrument that is wanted.
pub(crate) fn first_instrument(song: &Song, wanted: Wanted, used: &[bool; 64]) -> Option<Place>
    requires { AreMarks (IsUsedInstrument song.now) used.now }
    ensures found { IfSome result (IsFirstUnder song.now (meant song.now wanted) (3 ∷ [])) }
    ensures none { IfNone result (IsNowhereUnder song.now (meant song.now wanted) (3 ∷ [])) }
{
    for instrument in 0..64u8 {
        if is_wanted(song, wanted, used, instrument) {
            return Some(Place::InInstrument { instrument });
        }
    }
    None
}
