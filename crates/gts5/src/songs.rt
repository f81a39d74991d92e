//! Songs.

ghost use Rattle.std.specs.Prelude.{◌≡◌, ◌≤◌, ◌⊎◌, length, IfOk, IfErr};
ghost use Rattle.song_model.specs.declared.songs.Song.{Song};
ghost use Rattle.gts5.specs.declared.faults.SongFault.{SongFault};
ghost use Rattle.gts5.specs.Faults.{fault_of};
ghost use Rattle.gts5.specs.Reading.{song_of};
ghost use Rattle.gts5.specs.Gives.{Gives, IsAnswer};
ghost use Rattle.gts5.specs.Spells.{Spells};

use crate::SongFault;
use crate::reader::{Reader, skip_magic};
use crate::tables::Tables;
use crate::texts::Texts;
use song_model::Song;
use std::alloc::Global;

/// The most bytes of a file that is read. Every canonical spelling is shorter.
pub const MOST_BYTES: usize = 262_144;

/// The song that a file's bytes spell, in any spelling of the format GTS5; what the format lets a reader
/// ignore is ignored.
///
/// # Errors
///
/// Where they spell none, the first fault that stops the reading; or out of memory.
pub fn read(alloc: Global, bytes: &[u8]) -> Result<Song, SongFault>
    requires { length bytes.now ≤ MOST_BYTES }
    // A song that is read is spelled by the bytes.
    ensures found { IfOk result (Spells bytes.now) }
    // A song that the bytes spell is read.
    ensures only { (song : Song) → Spells bytes.now song → IsAnswer result (Ok song) }
    // A fault that is answered is the first one.
    ensures fault { IfErr result (λ fault. (fault ≡ SongFault.NoMemory) ⊎ (fault_of bytes.now ≡
        Some fault)) }
    // Where there is a fault it is answered.
    ensures exact { (fault : SongFault) → fault_of bytes.now ≡ Some fault →
        IsAnswer result (Err fault) }
{
    read_pieces(alloc, bytes)
}

/// The song of a file, piece by piece.
///
/// # Errors
///
/// The first fault that stops the reading; or out of memory.
#[tactic(auto, unfolding(crate::specs::Reading::song_of))]
fn read_pieces(alloc: Global, bytes: &[u8]) -> Result<Song, SongFault>
    requires { length bytes.now ≤ MOST_BYTES }
    ensures { Gives (λ song. song) result (song_of bytes.now) }
{
    let reader = Reader::of(bytes);
    let left = skip_magic(bytes)?;
    let (texts, left) = reader.texts(left)?;
    let (subtunes, left) = reader.subtunes(alloc, left)?;
    let (instruments, left) = reader.instruments(alloc, left)?;
    let (tables, left) = reader.tables(alloc, left)?;
    let (patterns, _) = reader.patterns(alloc, left)?;
    let Texts {
        name,
        author,
        copyright,
    } = texts;
    let Tables {
        wave,
        pulse,
        filter,
        speed,
    } = tables;
    Ok(Song {
        name,
        author,
        copyright,
        subtunes,
        instruments,
        wave,
        pulse,
        filter,
        speed,
        patterns,
    })
}
