//! The image of a song, and the file that it is written into.

ghost use Rattle.std.specs.Prelude.{◌≡◌, ◌+◌, ◌≤◌, true, length, List, ℕ, IfOk, IfErr, OnOk};
ghost use Rattle.goat_io.specs.Files.{Files};
ghost use Rattle.song_model.specs.declared.songs.Song.{Song as Kept};
ghost use Rattle.song_model.specs.Limits.{KeepsLimits};
ghost use Rattle.song_model.specs.LookUp.{playable_subtunes};
ghost use Rattle.play_model.specs.State.{no_options};
ghost use Rattle.play_model.specs.Playable.{IsPlayable};
ghost use Rattle.packed_form.specs.ImagePlaces.{IsAddress, IsZeroPage};
ghost use Rattle.song_gen.specs.GeneratedLaws.{PatternsAreShort, IsSmall};
ghost use Rattle.player_build.specs.Built.{IsBuild};
ghost use Rattle.command_line.specs.declared.chip.Chip.TheVariants.{Mos6581};
ghost use Rattle.command_line.specs.Last.{last_of};
ghost use Rattle.jobs.specs.Packed.{packed_file, IsWrittenFile};
ghost use Rattle.jobs.specs.Stages.{HasRoomForImage, HoldsSong, IsMet};
ghost use Rattle.jobs.specs.Endings.{Refuses, PacksSong};

use command_line::{Chip, Refusal};
use image_parts::code_parts;
use jobs::{packed_file, short_song, too_large_image};
use kept_lines::asked_by;
use packed_form::PackedSong;
use play_model::Options;
use player_build::{BuildFault, Image, Place, build};
use song_model::{NoMemory, Song};
use std::alloc::Global;

/// Where the image of a song that was made from a number stands.
const ADDRESS: u16 = 0x1000;

/// The first of its player's two bytes of page 0.
const ZERO_PAGE: u8 = 0xfc;

/// The place of an image at an allowed address, with two allowed bytes of page 0.
fn place_of(address: u16, zero_page: u8) -> Place
    requires address { IsAddress address }
    requires zero_page { IsZeroPage zero_page }
    ensures address { result.address ≡ address }
    ensures zero_page { result.zero_page ≡ zero_page }
{
    match Place::new(address, zero_page) {
        Ok(place) => place,
        Err(_) => unreachable!(),
    }
}

/// The image of a packed song for an allowed address and two allowed bytes of page 0, with the parts of the player that
/// its features, its facts and the options want.
///
/// # Errors
///
/// The image would pass `$D000`; out of memory.
pub fn image_of(
    alloc: Global,
    packed: &PackedSong,
    address: u16,
    zero_page: u8,
    options: &Options,
) -> Result<Image, Refusal<'static>>
    requires address { IsAddress address }
    requires zero_page { IsZeroPage zero_page }
    ensures built { IfOk result (λ image. IsBuild packed.now image.place options.now image) }
    ensures address { IfOk result (λ image. image.place.address ≡ address) }
    ensures zero_page { IfOk result (λ image. image.place.zero_page ≡ zero_page) }
    ensures room { OnOk result ((song : Kept) (files : Files) (name : List ℕ) →
        PacksSong options.now packed.now song → HoldsSong files name song →
        IsMet files (HasRoomForImage name address options.now)) }
    ensures refused { IfErr result (λ refusal. (song : Kept) (files : Files) (name : List ℕ) →
        PacksSong options.now packed.now song → HoldsSong files name song →
        Refuses files (HasRoomForImage name address options.now) (last_of refusal)) }
{
    let code = code_parts(alloc, asked_by(packed), options)?;
    let place = place_of(address, zero_page);
    match build(alloc, packed, code.as_slice(), place, options) {
        Ok(image) => Ok(image),
        Err(BuildFault::NoMemory) => Err(Refusal::NoMemory),
        Err(BuildFault::TooLarge { length }) => Err(too_large_image(length)),
    }
}

/// The file of an image of a song that is played with these options and made for this SID.
///
/// # Errors
///
/// Out of memory.
pub fn image_file(
    alloc: Global,
    psid: bool,
    song: &Song,
    image: &Image,
    options: &Options,
    chip: Chip,
) -> Result<Vec<u8>, NoMemory>
    requires limits { KeepsLimits song.now }
    requires some { 1 ≤ length (playable_subtunes song.now) }
    requires below { image.now.place.address + length image.now.bytes ≤ 0xD000 }
    ensures { IfOk result (λ file. file.items ≡
        packed_file psid song.now image.now.place.address image.now.bytes options.now chip) }
{
    packed_file(
        alloc,
        psid,
        song,
        image.place.address,
        image.bytes.as_slice(),
        options,
        chip,
    )
}

/// The image of a small song, at `$1000`.
///
/// # Errors
///
/// Out of memory.
fn small_image(alloc: Global, song: &Song, packed: &PackedSong) -> Result<Image, NoMemory>
    requires packs { PacksSong no_options packed.now song.now }
    requires small { IsSmall song.now }
    ensures built { IfOk result (λ image. IsBuild packed.now image.place no_options image) }
    ensures address { IfOk result (λ image. image.place.address ≡ 0x1000) }
    ensures zero_page { IfOk result (λ image. image.place.zero_page ≡ 0xFC) }
{
    let options = Options::default();
    let code = code_parts(alloc, asked_by(packed), &options)?;
    let place = place_of(ADDRESS, ZERO_PAGE);
    match build(alloc, packed, code.as_slice(), place, &options) {
        Ok(image) => Ok(image),
        Err(BuildFault::NoMemory) => Err(NoMemory),
        Err(BuildFault::TooLarge { .. }) => unreachable!(),
    }
}

/// The PSID file of a small song with short patterns, for `$1000` and page 0's `$FC`.
///
/// # Errors
///
/// Out of memory.
pub fn generated_file(alloc: Global, song: &Song) -> Result<Vec<u8>, NoMemory>
    requires limits { KeepsLimits song.now }
    requires playable { IsPlayable song.now }
    requires short { PatternsAreShort song.now }
    requires small { IsSmall song.now }
    ensures { IfOk result (λ file. IsWrittenFile true 0x1000 0xFC song.now no_options Mos6581 file.items) }
{
    let packed = short_song(alloc, song)?;
    let image = small_image(alloc, song, &packed)?;
    image_file(
        alloc,
        true,
        song,
        &image,
        &Options::default(),
        Chip::Mos6581,
    )
}
