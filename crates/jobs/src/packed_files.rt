//! Packed files: an image of a player with its song, raw or as a PSID file.

ghost use Rattle.std.specs.Prelude.{◌≡◌, ◌+◌, ◌≤◌, ◌<◌, length, IfOk};
ghost use Rattle.song_model.specs.Limits.{KeepsLimits};
ghost use Rattle.song_model.specs.LookUp.{playable_subtunes};
ghost use Rattle.packed_form.specs.ImagePlaces.{IsAddress};
ghost use Rattle.jobs.specs.Packed.{packed_file, raw_file, psid_file, song_header, caller_bits, flags_of};

use command_line::Chip;
use play_model::{Options, Speed, System};
use psid::Header;
use song_model::{NoMemory, Song};
use std::alloc::Global;

/// How far play stands after init, in bytes.
const PLAY_OFFSET: u16 = 3;

/// The file of an image of a song that is played with these options and made for this SID. The image stands at the
/// address.
///
/// # Errors
///
/// Out of memory.
pub fn packed_file(
    alloc: Global,
    psid: bool,
    song: &Song,
    address: u16,
    image: &[u8],
    options: &Options,
    chip: Chip,
) -> Result<Vec<u8>, NoMemory>
    requires limits { KeepsLimits song.now }
    requires some { 1 ≤ length (playable_subtunes song.now) }
    requires place { IsAddress address }
    requires below { address + length image.now ≤ 0xD000 }
    ensures { IfOk result (λ file. file.items ≡
        packed_file psid song.now address image.now options.now chip) }
{
    if psid {
        psid_file(alloc, song, address, image, options, chip)
    } else {
        raw_file(alloc, address, image)
    }
}

/// A raw file: the address, low byte first, and the image.
pub fn raw_file(alloc: Global, address: u16, image: &[u8]) -> Result<Vec<u8>, NoMemory>
    ensures { IfOk result (λ file. file.items ≡ raw_file address image.now) }
{
    let mut file = Vec::new(alloc);
    file.extend_from_slice(&address.to_le_bytes())?;
    file.extend_from_slice(image)?;
    Ok(file)
}

/// The PSID file of a song's image.
fn psid_file(
    alloc: Global,
    song: &Song,
    address: u16,
    image: &[u8],
    options: &Options,
    chip: Chip,
) -> Result<Vec<u8>, NoMemory>
    requires limits { KeepsLimits song.now }
    requires some { 1 ≤ length (playable_subtunes song.now) }
    requires place { IsAddress address }
    requires below { address + length image.now ≤ 0xD000 }
    ensures { IfOk result (λ file. file.items ≡
        psid_file song.now address image.now options.now chip) }
{
    let header = song_header(song, address, options, chip);
    match psid::write(alloc, &header, address, image) {
        Ok(file) => Ok(file),
        Err(_) => Err(NoMemory),
    }
}

/// The header of a song's PSID file.
fn song_header(song: &Song, address: u16, options: &Options, chip: Chip) -> Header
    requires place { IsAddress address }
    ensures { result ≡ song_header song.now address options.now chip }
{
    Header {
        init: address,
        play: address + PLAY_OFFSET,
        songs: u16::from(song.playable_count()),
        start_song: 1,
        speed: caller_bits(options.speed),
        name: song.name,
        author: song.author,
        released: song.copyright,
        flags: flags_of(options.system, chip),
    }
}

/// What calls play, a bit for each song of a file: at speed 1 the vertical blank, else the timer.
fn caller_bits(speed: Speed) -> u32
    ensures { result ≡ caller_bits speed }
{
    if speed.calls() == 1 { 0 } else { u32::MAX }
}

/// The flags: in bits 2 and 3 the system, in bits 4 and 5 the SID.
fn flags_of(system: System, chip: Chip) -> u16
    ensures { result ≡ flags_of system chip }
{
    match (system, chip) {
        (System::Pal, Chip::Mos6581) => 0x0014,
        (System::Pal, Chip::Mos8580) => 0x0024,
        (System::Ntsc, Chip::Mos6581) => 0x0018,
        (System::Ntsc, Chip::Mos8580) => 0x0028,
    }
}
