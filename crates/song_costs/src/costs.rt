//! Bytes by kind.

ghost use Rattle.std.specs.Prelude.{◌≡◌, ◌≤◌, ◌*◌, sum_by, length};
ghost use Rattle.song_model.specs.declared.songs.Song.{Song as AnySong};
ghost use Rattle.play_model.specs.declared.options.Options.{Options};
ghost use Rattle.packed_form.specs.Sizes.{list_size};
ghost use Rattle.packing_rules.specs.UsedSets.{UsedSets, AreUsedSets};
ghost use Rattle.kept_lines.specs.Asked.{asked_by};
ghost use Rattle.image_parts.specs.CodeParts.{code_parts};
ghost use Rattle.image_parts.specs.Lengths.{bytes_of_image};
ghost use Rattle.song_pack.specs.Packed.{IsPacked};
ghost use Rattle.song_costs.specs.Kinds.{costs_of, all_bytes};

use image_parts::{code_length, frequency_bytes, slide_bytes};
use kept_lines::asked_by;
use packed_form::{PackedPatternList, PackedSong};
use player_memory::{shared_size, unlisted_size, unread_size};
use song_model::Table;

/// How many bytes a song takes in a packed file, kind by kind.
#[derive(Clone, Copy, Debug, PartialEq, Eq)]
pub struct Costs {
    /// The player's code with its variables and two zeros.
    pub player: u32,
    /// The orderlists, with two bytes for the address of each where the song has several subtunes.
    pub orders: u32,
    /// The patterns, with two bytes for the address of each.
    pub patterns: u32,
    /// The instruments: of each the bytes that are read, three, and one more for each field that some instrument needs;
    /// one for all of them where they have the same gateoff timer, and where they have the same first waveform; and one
    /// each for the numbers from which on they hold the gate and the envelope before a note, where these stand.
    pub instruments: u32,
    /// The rows of the wave table, two bytes each.
    pub wave: u32,
    /// Those of the pulse table.
    pub pulse: u32,
    /// Those of the filter table.
    pub filter: u32,
    /// Those of the speed table, and of the slides and periods of a song with calculated speeds.
    pub speed: u32,
    /// The frequencies, two bytes each, and the gap in front of them.
    pub frequencies: u32,
}

impl Costs {
    /// The bytes of all kinds: the length of the image.
    pub fn sum(&self) -> u64
        ensures { result ≡ all_bytes self.now }
    {
        u64::from(self.player)
            + u64::from(self.orders)
            + u64::from(self.patterns)
            + u64::from(self.instruments)
            + u64::from(self.wave)
            + u64::from(self.pulse)
            + u64::from(self.filter)
            + u64::from(self.speed)
            + u64::from(self.frequencies)
    }
}

/// The bytes of packed patterns.
fn patterns_bytes(patterns: &PackedPatternList) -> u32
    ensures size { result ≡ sum_by list_size patterns.now }
    ensures most { result ≤ 53_664 }
{
    let mut bytes = 0;
    for pattern in patterns.as_slice() {
        bytes += 2 + pattern.as_slice().len() as u32;
    }
    bytes
}

/// The bytes of a packed table.
fn rows_bytes(table: &Table) -> u32
    ensures size { result ≡ 2 * length table.now }
    ensures most { result ≤ 510 }
{
    2 * table.as_slice().len() as u32
}

/// How many bytes each kind takes of a song that is packed so, with a player whose code's bytes have these parts
/// (`image_parts::code_parts`).
pub fn costs_by_kind(packed: &PackedSong, code: &[u8]) -> Costs
    requires { length code.now ≤ 65535 }
    // Each number is the one that the packed form's definitions name, for what the song uses.
    ensures exact { (song : AnySong) (used : UsedSets) (options : Options) → AreUsedSets song used →
        IsPacked song used packed.now → code.now ≡ code_parts (asked_by packed.now) options →
        result ≡ costs_of song used (asked_by packed.now) packed.now.numbers options }
    // They add up to the image's length.
    ensures length { all_bytes result ≡ bytes_of_image packed.now code.now }
{
    let patterns = patterns_bytes(&packed.patterns);
    let fields = 9 * packed.instruments.as_slice().len() as u32;
    let instruments = fields + shared_size(packed) - unread_size(packed);
    let wave = rows_bytes(&packed.wave);
    let pulse = rows_bytes(&packed.pulse);
    let filter = rows_bytes(&packed.filter);
    let speed = rows_bytes(&packed.speed);
    let slides = slide_bytes(asked_by(packed), packed.speed.as_slice().len() as u32);
    let orders = packed.size() - patterns - fields - wave - pulse - filter - speed;
    Costs {
        player: code_length(code),
        orders: orders - unlisted_size(packed),
        patterns,
        instruments,
        wave,
        pulse,
        filter,
        speed: speed + slides,
        frequencies: frequency_bytes(packed),
    }
}
