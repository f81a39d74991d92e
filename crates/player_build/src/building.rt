//! From a packed song to its image.

ghost use Rattle.std.specs.Prelude.{◌≡◌, ◌+◌, ◌≤◌, ◌↔◌, IfOk, IsErrOf, All, length};
ghost use Rattle.play_model.specs.Speeds.{IsSpeed};
ghost use Rattle.packed_form.specs.ImagePlaces.{IsAddress, IsZeroPage};
ghost use Rattle.song_lists.specs.ListLaws.{KeepsCounts};
ghost use Rattle.frame_scenes.specs.FrameScenes.{KeepsPatternLimits};
ghost use Rattle.kept_lines.specs.Asked.{asked_by};
ghost use Rattle.image_parts.specs.CodeParts.{code_parts};
ghost use Rattle.image_parts.specs.Lengths.{image_length};
ghost use Rattle.player_build.specs.Room.{IsTooLarge};
ghost use Rattle.player_build.specs.Built.{IsBuild};

use crate::faults::BuildFault;
use crate::image::Image;
use crate::place::Place;
use crate::spans::image_spans;
use base::NoMemory;
use image_parts::image_length;
use packed_form::{PackedPattern, PackedSong};
use play_model::Options;
use player_image::image_of;
use std::alloc::Global;

/// The first place behind an image's room.
const IMAGE_END: u64 = 0xd000;

/// A pattern has at most 256 bytes.
fn is_short(pattern: &PackedPattern)
    ensures { length pattern.now ≤ 256 }
{
    let _bytes = pattern.as_slice();
}

/// So has each pattern.
fn are_short(patterns: &[PackedPattern])
    ensures { All (λ pattern. length pattern ≤ 256) patterns.now }
{
    for pattern in patterns {
        is_short(pattern);
    }
}

/// A packed song has at most 32 subtunes, and at most 208 patterns of at most 256 bytes; a place is an allowed one, and a
/// speed is from 1 to 4.
fn keep_limits(packed: &PackedSong, place: &Place, options: &Options)
    ensures counts { KeepsCounts packed.now }
    ensures patterns { KeepsPatternLimits packed.now }
    ensures address { IsAddress place.now.address }
    ensures page { IsZeroPage place.now.zero_page }
    ensures speed { IsSpeed options.now.speed }
{
    let _subtunes = packed.subtunes.as_slice();
    let _calls = options.speed.calls();
    are_short(packed.patterns.as_slice());
}

/// The image, where it fits.
fn image(
    alloc: Global,
    packed: &PackedSong,
    code: &[u8],
    place: Place,
    options: &Options,
) -> Result<Image, NoMemory>
    requires code { code.now ≡ code_parts (asked_by packed.now) options.now }
    requires fits { place.address + image_length packed.now options.now ≤ 0xD000 }
    ensures { IfOk result (IsBuild packed.now place options.now) }
{
    keep_limits(packed, &place, options);
    let speeds = packed.speed.as_slice().len() as u16;
    let parts = image_spans(alloc, code, speeds)?;
    let bytes = image_of(alloc, packed, place.address, place.zero_page, options)?;
    Ok(Image {
        place,
        bytes,
        parts,
    })
}

/// Builds the image of a packed song for a place, with the parts of what the song asks for and of the options. The
/// bytes of its code have these parts (`image_parts::code_parts`).
///
/// # Errors
///
/// `TooLarge` exactly where the image would pass `$D000`, with its length; else `NoMemory` where memory is wanting.
pub fn build(
    alloc: Global,
    packed: &PackedSong,
    code: &[u8],
    place: Place,
    options: &Options,
) -> Result<Image, BuildFault>
    requires { code.now ≡ code_parts (asked_by packed.now) options.now }
    ensures built { IfOk result (IsBuild packed.now place options.now) }
    ensures too_large { (length : _) → IsErrOf result (BuildFault.TooLarge length)
        ↔ IsTooLarge packed.now options.now place.address length }
{
    let length = image_length(packed, code);
    if u64::from(place.address) + u64::from(length) > IMAGE_END {
        return Err(BuildFault::TooLarge { length });
    }
    match image(alloc, packed, code, place, options) {
        Ok(image) => Ok(image),
        Err(NoMemory) => Err(BuildFault::NoMemory),
    }
}
