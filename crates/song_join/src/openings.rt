//! Whether a note is played before any row names an instrument.

ghost use Rattle.std.specs.Prelude.{◌≡◌, ◌↔◌, ◌≤◌, ℕ, length, IsTrue, IfErr, OnOk};
ghost use Rattle.std.specs.Option.{option_copied};
ghost use Rattle.song_model.specs.Endless.{IsEndless};
ghost use Rattle.play_model.specs.Playable.{IsPlayable};
ghost use Rattle.song_join.specs.Openings.{is_opening, opening, BeginsUnnamed, IsUnnamedAt, NamesFirst};
ghost use Rattle.song_join.specs.Parts.{AreOpenings, IsChannelOf, IsPlayableSubtune, IsUnnamedFault, IsFirstUnnamedIn};
ghost use Rattle.song_join.specs.Parts.{NoneUnnamedIn, IsFirstUnnamed};

use crate::JoinFault;
use song_model::{MOST_PATTERNS, Order, Row, Song, Subtune};

/// The opening row of each pattern, by its number.
type Openings = [Option<Row>; MOST_PATTERNS];

/// The first byte of an orderlist that is no pattern's number.
const FIRST_REPEAT: u8 = 0xd0;

/// Whether a row has a note or names an instrument.
fn is_opening(row: Row) -> bool
    ensures { result ≡ is_opening row }
{
    (row.note >= 0x60 && row.note <= 0xbc) || row.instrument != 0
}

/// The first row that has a note or names an instrument.
fn opening(rows: &[Row]) -> Option<Row>
    ensures { result ≡ opening rows.now }
{
    for row in rows {
        if is_opening(*row) {
            return Some(*row);
        }
    }
    None
}

/// The opening row of each pattern of a song.
fn openings(song: &Song) -> Openings
    ensures { AreOpenings song.now result }
{
    let stored = song.patterns.as_slice();
    let mut openings = [None; MOST_PATTERNS];
    for (n, pattern) in stored.iter().enumerate() {
        openings[n] = opening(pattern.as_slice());
    }
    openings
}

/// Whether an orderlist plays a note before a row names an instrument. What it plays after its end it has played
/// before.
fn begins_unnamed(song: &Song, openings: &Openings, order: &Order) -> bool
    requires openings { AreOpenings song.now openings.now }
    requires endless { IsEndless order.now }
    ensures { IsTrue result ↔ BeginsUnnamed song.now order.now }
{
    // Named in the contract alone.
    let _song = song;
    let entries = order.entries.as_slice();
    for byte in entries {
        if *byte < FIRST_REPEAT {
            if let Some(row) = openings[usize::from(*byte)] {
                return row.instrument == 0;
            }
        }
    }
    false
}

/// Looks whether in a channel of playable subtune `number`, counted from 1, a row names an instrument before a note is
/// played.
///
/// # Errors
///
/// None does.
fn check_channel(
    song: &Song,
    openings: &Openings,
    number: u8,
    channel: u8,
    order: &Order,
) -> Result<(), JoinFault>
    requires openings { AreOpenings song.now openings.now }
    requires channel { IsChannelOf song.now number channel order.now }
    ensures found { IfErr result (IsUnnamedFault song.now number channel) }
    ensures none { OnOk result (¬ IsUnnamedAt song.now number channel) }
{
    if begins_unnamed(song, openings, order) {
        return Err(JoinFault::NoteBeforeInstrument {
            subtune: number,
            channel,
        });
    }
    Ok(())
}

/// Looks at the channels of playable subtune `number`, counted from 1.
///
/// # Errors
///
/// The first one in which a note is played before a row names an instrument.
#[tactic(auto, using(crate::proofs::Channels::first_one, crate::proofs::Channels::first_two, crate::proofs::Channels::first_three, crate::proofs::Channels::none_of_three))]
fn check_subtune(
    song: &Song,
    openings: &Openings,
    number: u8,
    subtune: &Subtune,
) -> Result<(), JoinFault>
    requires openings { AreOpenings song.now openings.now }
    requires playable { IsPlayable song.now }
    requires subtune { IsPlayableSubtune song.now number subtune.now }
    ensures found { IfErr result (IsFirstUnnamedIn song.now number) }
    ensures none { OnOk result (NoneUnnamedIn song.now number) }
{
    check_channel(song, openings, number, 1, &subtune.one)?;
    check_channel(song, openings, number, 2, &subtune.two)?;
    check_channel(song, openings, number, 3, &subtune.three)
}

/// Looks whether in each channel of each playable subtune a row names an instrument before a note is played, or with
/// it.
///
/// # Errors
///
/// The first channel in which none does: of the least subtune.
#[tactic(auto, using(crate::proofs::Channels::first_of_song))]
pub(crate) fn check_openings(song: &Song) -> Result<(), JoinFault>
    requires { IsPlayable song.now }
    ensures found { IfErr result (IsFirstUnnamed song.now) }
    ensures none { OnOk result (NamesFirst song.now) }
{
    let openings = openings(song);
    let stored = song.subtunes.as_slice();
    let mut number = 0;
    for subtune in stored {
        if subtune.is_playable() {
            number += 1;
            check_subtune(song, &openings, number, subtune)?;
        }
    }
    Ok(())
}
