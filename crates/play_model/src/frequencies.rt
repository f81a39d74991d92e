//! The frequencies of notes, and the speeds of the speed table.

ghost use Rattle.std.specs.Prelude.{◌≡◌, ◌<◌};
ghost use Rattle.play_model.specs.LookUps.{look_ups_of};
ghost use Rattle.play_model.specs.Freq.{freq, half_tone, slide_of, slide};

use song_model::{Song, TableRow};

/// The frequencies of the twelve half tones from C to B in the highest octave.
const HIGHEST_OCTAVE: [u32; 12] = [
    0x8b42, 0x9389, 0x9c4f, 0xa59b, 0xaf74, 0xb9e2, 0xc4f0, 0xd0a6, 0xdd0e, 0xea33, 0xf820, 67298,
];

/// The number of notes that have a frequency: C-0 to B-7.
const NOTES: u8 = 96;

/// The SID's frequency number of a note. Notes count half tones from C-0, which is 0; the number of a note of the
/// highest octave, 84 to 95, is this project's, at most 65,535, and halves for each octave below; above B-7, from 96 on,
/// it is 0.
#[tactic(auto, unfolding(crate::specs::Freq::freq))]
pub fn freq(n: u8) -> u16
    ensures { result ≡ freq n }
{
    if n >= NOTES {
        return 0;
    }
    let highest = HIGHEST_OCTAVE[usize::from(n % 12)];
    let frequency = highest >> (7 - n / 12);
    frequency.min(0xffff) as u16
}

/// The step from a note to the half tone above it, which wraps.
#[tactic(auto, unfolding(crate::specs::Freq::half_tone))]
fn half_tone(n: u8) -> u16
    requires { n < 128 }
    ensures { result ≡ half_tone n }
{
    freq(n + 1).wrapping_sub(freq(n))
}

/// The speed that a row stands for, at this last note.
fn slide_of(row: TableRow, last: u8) -> u16
    requires { last < 128 }
    ensures { result ≡ slide_of row last }
{
    if row.left < 0x80 {
        return u16::from(row.left) * 256 + u16::from(row.right);
    }
    if row.right < 16 {
        half_tone(last) >> row.right
    } else {
        0
    }
}

/// The speed of a slide, in frequency numbers per frame: row `pointer` of the speed table is a number of 16 bits, or with
/// a left side of `$80` or more the step from the note `last`, 0 to 127, to the half tone above it, shifted right by the
/// right side, and 0 for shifts of 16 and more. A row that isn't stored is 0. The rule is the GoatTracker 2 readme's.
#[tactic(auto, unfolding(crate::specs::Freq::slide))]
pub fn slide(song: &Song, pointer: u8, last: u8) -> u16
    requires { last < 128 }
    ensures { result ≡ slide (look_ups_of song.now) pointer last }
{
    slide_of(song.speed(pointer), last)
}
