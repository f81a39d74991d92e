//! The song whose patterns are cut.

ghost use Rattle.std.specs.Prelude.{◌≡◌, ℕ, ◌<◌, ◌≤◌, ◌++◌, true, length, map, All, IfOk, OnOk, IfSome, position};
ghost use Rattle.std.specs.Prelude.{nat_eq};
ghost use Rattle.std.specs.List.{flat_map, position_or_len};
ghost use Rattle.song_model.specs.LookUp.{playable_subtunes};
ghost use Rattle.song_model.specs.declared.patterns.TheConstants.{MOST_PATTERNS};
ghost use Rattle.song_model.specs.Limits.{KeepsLimits};
ghost use Rattle.play_model.specs.Playable.{IsPlayable};
ghost use Rattle.pattern_cut.specs.Cuts.{in_pieces, cut_order};
ghost use Rattle.pattern_cut.specs.CutSongs.{cut_subtune, cut_with};
ghost use Rattle.pattern_cut.specs.Choice.{fits, cut_song};
ghost use Rattle.song_cut.specs.Numbers.{rows_at};
ghost use Rattle.song_cut.specs.Tables.{IsShaped, IsTableOf, list_at};
ghost use Rattle.song_cut.specs.Cutting.{ArePlaces, CountsPlaces, IsCuttable, IsCuttableSubtune};

use crate::choice::chosen_ways;
use crate::marks::FIRST_REPEAT;
use crate::orders::{PieceCounts, counted, piece_counts};
use crate::seen::{Ways, distinct_pieces};
use crate::table::PieceTable;
use base::{Items, NoMemory};
use song_model::{Bounded, Order, OrderEntries, PatternList, Song, Subtune, SubtuneList};
use std::alloc::Global;

/// For each pattern the numbers of its pieces in the song whose patterns they are.
type PlaceLists = Items<Items<u8>>;

/// The patterns of the song that is cut: these pieces.
///
/// # Errors
///
/// Out of memory.
fn cut_patterns(alloc: Global, table: &PieceTable, order: &[u16]) -> Result<PatternList, NoMemory>
    requires inside { All (λ (k : ℕ). k < length table.now.pieces.items) order.now }
    requires few { length order.now ≤ MOST_PATTERNS }
    ensures { IfOk result (λ list. list ≡ map (rows_at table.now.pieces.items) order.now) }
{
    let pieces = table.pieces.as_slice();
    let mut list = Vec::new(alloc);
    for number in order {
        list.push(pieces[usize::from(*number)].rows.copy(alloc)?)?;
    }
    Ok(Bounded::from_vec(list))
}

/// Where a number stands first among others, if it does.
fn found_in(order: &[u16], number: u16) -> Option<usize>
    ensures place { result ≡ position (nat_eq number) order.now }
    ensures inside { IfSome result (λ place. place < length order.now) }
{
    order.iter().position(|other| number == *other)
}

/// The place of a number among others; behind them where it isn't there.
fn place_of(order: &[u16], number: u16) -> u8
    requires { length order.now ≤ MOST_PATTERNS }
    ensures { result ≡ position_or_len (nat_eq number) order.now }
{
    match found_in(order, number) {
        Some(place) => place as u8,
        None => order.len() as u8,
    }
}

/// Where these pieces stand among the patterns of the song that is cut.
///
/// # Errors
///
/// Out of memory.
fn places_of(alloc: Global, order: &[u16], numbers: &[u16]) -> Result<Items<u8>, NoMemory>
    requires { length order.now ≤ MOST_PATTERNS }
    ensures { IfOk result (λ places. places ≡
        map (λ k. position_or_len (nat_eq k) order.now) numbers.now) }
{
    let mut places = Vec::new(alloc);
    for number in numbers {
        places.push(place_of(order, *number))?;
    }
    Ok(Items::from_vec(places))
}

/// Where the pieces of each pattern stand among the patterns of the song that is cut.
///
/// # Errors
///
/// Out of memory.
fn place_lists(
    alloc: Global,
    table: &PieceTable,
    ways: &Ways,
    order: &[u16],
) -> Result<PlaceLists, NoMemory>
    requires shaped { IsShaped table.now }
    requires few { length order.now ≤ MOST_PATTERNS }
    ensures { IfOk result (ArePlaces table.now ways.now order.now) }
{
    let mut lists = Vec::new(alloc);
    for p in 0..208u8 {
        lists.push(places_of(alloc, order, table.numbers(ways[usize::from(p)], p))?)?;
    }
    Ok(Items::from_vec(lists))
}

/// Adds what stands for a byte of an orderlist: the pieces of a pattern, or the byte itself.
///
/// # Errors
///
/// Out of memory.
fn push_pieces(bytes: &mut Vec<u8>, byte: u8, places: &PlaceLists) -> Result<(), NoMemory>
    requires { length places.now ≡ MOST_PATTERNS }
    ensures { OnOk result (bytes.new.items ≡ bytes.old.items ++
        in_pieces (list_at places.now) byte) }
{
    if byte < FIRST_REPEAT {
        bytes.extend_from_slice(places.as_slice()[usize::from(byte)].as_slice())?;
    } else {
        bytes.push(byte)?;
    }
    Ok(())
}

/// The bytes that stand for these of an orderlist.
///
/// # Errors
///
/// Out of memory.
fn cut_entries(alloc: Global, entries: &[u8], places: &PlaceLists) -> Result<Vec<u8>, NoMemory>
    requires { length places.now ≡ MOST_PATTERNS }
    ensures { IfOk result (λ bytes. bytes.items ≡
        flat_map (in_pieces (list_at places.now)) entries.now) }
{
    let mut bytes = Vec::new(alloc);
    for byte in entries {
        push_pieces(&mut bytes, *byte, places)?;
    }
    Ok(bytes)
}

/// The orderlist that names the pieces.
///
/// # Errors
///
/// Out of memory.
fn cut_order(
    alloc: Global,
    order: &Order,
    places: &PlaceLists,
    counts: &PieceCounts,
) -> Result<Order, NoMemory>
    requires counts { CountsPlaces places.now counts.now }
    requires order { IsCuttable places.now order.now }
    ensures { IfOk result (λ cut. cut ≡ cut_order (list_at places.now) order.now) }
{
    let entries = order.entries.as_slice();
    let first = usize::from(order.restart).min(entries.len());
    Ok(Order {
        entries: OrderEntries::from_vec(cut_entries(alloc, entries, places)?),
        restart: counted(&entries[..first], counts) as u8,
    })
}

/// The subtune whose orderlists name the pieces.
///
/// # Errors
///
/// Out of memory.
fn cut_subtune(
    alloc: Global,
    subtune: &Subtune,
    places: &PlaceLists,
    counts: &PieceCounts,
) -> Result<Subtune, NoMemory>
    requires counts { CountsPlaces places.now counts.now }
    requires subtune { IsCuttableSubtune places.now subtune.now }
    ensures { IfOk result (λ cut. cut ≡ cut_subtune (list_at places.now) subtune.now) }
{
    Ok(Subtune {
        one: cut_order(alloc, &subtune.one, places, counts)?,
        two: cut_order(alloc, &subtune.two, places, counts)?,
        three: cut_order(alloc, &subtune.three, places, counts)?,
    })
}

/// The playable subtunes, whose orderlists name the pieces.
///
/// # Errors
///
/// Out of memory.
fn cut_subtunes(
    alloc: Global,
    song: &Song,
    places: &PlaceLists,
    counts: &PieceCounts,
) -> Result<SubtuneList, NoMemory>
    requires counts { CountsPlaces places.now counts.now }
    requires subtunes { All (IsCuttableSubtune places.now) (playable_subtunes song.now) }
    ensures { IfOk result (λ list. list ≡
        map (cut_subtune (list_at places.now)) (playable_subtunes song.now)) }
{
    let stored = song.subtunes.as_slice();
    let mut list = Vec::new(alloc);
    for subtune in stored {
        if subtune.is_playable() {
            list.push(cut_subtune(alloc, subtune, places, counts)?)?;
        }
    }
    Ok(Bounded::from_vec(list))
}

/// The song whose patterns are these pieces.
///
/// # Errors
///
/// Out of memory.
fn cut_with(alloc: Global, song: &Song, table: &PieceTable, ways: &Ways) -> Result<Song, NoMemory>
    requires limits { KeepsLimits song.now }
    requires table { IsTableOf song.now table.now }
    requires fits { fits (cut_with song.now ways.now) ≡ true }
    ensures { IfOk result (λ cut. cut ≡ cut_with song.now ways.now) }
{
    let Some(order) = distinct_pieces(table, ways) else {
        unreachable!()
    };
    let patterns = cut_patterns(alloc, table, order.as_slice())?;
    let places = place_lists(alloc, table, ways, order.as_slice())?;
    let counts = piece_counts(table, ways);
    let subtunes = cut_subtunes(alloc, song, &places, &counts)?;
    Ok(Song {
        name: song.name,
        author: song.author,
        copyright: song.copyright,
        subtunes,
        instruments: song.instruments.copy(alloc)?,
        wave: song.wave.copy(alloc)?,
        pulse: song.pulse.copy(alloc)?,
        filter: song.filter.copy(alloc)?,
        speed: song.speed.copy(alloc)?,
        patterns,
    })
}

/// The song with its patterns cut into pieces, of which equal ones are stored once. How long the pieces of a pattern
/// are is chosen pattern by pattern, by the bytes of orderlists and patterns. For that it weighs at most 5,205 songs, for
/// each of which it walks along the orderlists and the pieces.
///
/// # Errors
///
/// Out of memory.
pub fn cut_song(alloc: Global, song: &Song) -> Result<Song, NoMemory>
    requires limits { KeepsLimits song.now }
    requires playable { IsPlayable song.now }
    ensures { IfOk result (λ cut. cut ≡ cut_song song.now) }
{
    let table = PieceTable::of(alloc, song)?;
    let ways = chosen_ways(song, &table);
    cut_with(alloc, song, &table, &ways)
}
