//! Packing a song.

ghost use Rattle.std.specs.Prelude.{◌≡◌, IfOk, IfErr, OnOk};
ghost use Rattle.song_model.specs.Limits.{KeepsLimits};
ghost use Rattle.play_model.specs.Playable.{IsPlayable};
ghost use Rattle.usage.specs.Parts.{AreUsedParts};
ghost use Rattle.packing_rules.specs.UsedSets.{UsedSets, AreUsedSets};
ghost use Rattle.song_pack.specs.Answers.{AreShort, IsCause};
ghost use Rattle.cut_pack.specs.Answers.{IsPackedOf, shorter_of, IsPackedCut, Packs};

use base::NoMemory;
use packed_form::PackedSong;
use play_model::Options;
use song_cut::cut_song;
use song_model::Song;
use song_pack::{PackFault, pack_song};
use std::alloc::Global;
use usage::{UsedParts, usage};

/// The packed song of a song that can be played, with what it uses, for how it is played: with its patterns cut, where
/// that takes fewer bytes and no option is heard where a pattern begins.
///
/// # Errors
///
/// The text of a used pattern is longer than 256 bytes, the first such pattern; out of memory.
pub fn pack_shorter(
    alloc: Global,
    song: &Song,
    parts: &UsedParts,
    options: &Options,
) -> Result<PackedSong, PackFault>
    requires limits { KeepsLimits song.now }
    requires playable { IsPlayable song.now }
    requires parts { AreUsedParts song.now parts.now }
    // It is that of the song that is packed for this one.
    ensures packs { IfOk result (λ packed. Packs options.now packed song.now) }
    // A pattern that is too long is told exactly where the song has one, and the first of them.
    ensures short { (used : UsedSets) → AreUsedSets song.now used → OnOk result
        (AreShort song.now used) }
    ensures fault { (used : UsedSets) → AreUsedSets song.now used → IfErr result
        (IsCause song.now used) }
{
    let whole = pack_song(alloc, song, parts)?;
    if options.skip_first {
        return Ok(whole);
    }
    let cut = cut_song(alloc, song)?;
    let packed = packed_cut(alloc, &cut)?;
    Ok(shorter_of(whole, packed))
}

/// The packed song of a song as it is, or that of the song whose patterns are cut, where there is one and it has fewer
/// bytes.
fn shorter_of(whole: PackedSong, cut: Option<PackedSong>) -> PackedSong
    ensures { result ≡ shorter_of whole cut }
{
    let Some(cut) = cut else {
        return whole;
    };
    if cut.size() < whole.size() {
        return cut;
    }
    whole
}

/// The packed song of a song whose patterns are cut, where each of them may be packed.
///
/// # Errors
///
/// Out of memory.
fn packed_cut(alloc: Global, cut: &Song) -> Result<Option<PackedSong>, NoMemory>
    requires limits { KeepsLimits cut.now }
    requires playable { IsPlayable cut.now }
    ensures { IfOk result (IsPackedCut cut.now) }
{
    let Ok(parts) = usage(cut) else {
        unreachable!()
    };
    match pack_song(alloc, cut, &parts) {
        Ok(packed) => Ok(Some(packed)),
        Err(PackFault::PatternTooLong { .. }) => Ok(None),
        Err(PackFault::NoMemory) => Err(NoMemory),
    }
}
