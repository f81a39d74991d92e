//! Which lists of a packed song there are.

ghost use Rattle.std.specs.Prelude.{◌≡◌, ◌≤◌, ◌<◌, ◌*◌, length};
ghost use Rattle.player_memory.specs.SongLists.{is_read, unread, unread_size, unlisted_size, shared_size};
ghost use Rattle.player_memory.specs.SongLists.{has_gate_from, has_envelope_from, bytes_read, gap_size};

use packed_form::PackedSong;

/// The number of the byte of an instrument that is its pulse program.
const PULSE_BYTE: usize = 3;

/// That of its filter program.
const FILTER_BYTE: usize = 4;

/// That of its vibrato.
const VIBRATO_BYTE: usize = 5;

/// That of its vibrato's delay.
pub const DELAY_BYTE: usize = 6;

/// That of its gateoff timer.
pub const TIMER_BYTE: usize = 7;

/// That of its first waveform.
pub const FIRST_WAVE_BYTE: usize = 8;

/// Whether a line of the player may read this byte of an instrument, 0 to 8: some only where the song has an instrument
/// that needs it.
pub fn is_read(packed: &PackedSong, field: usize) -> bool
    requires { field < 9 }
    ensures { result ≡ is_read packed.now field }
{
    let facts = &packed.facts;
    match field {
        PULSE_BYTE => facts.note_pulse,
        FILTER_BYTE => facts.note_filter,
        VIBRATO_BYTE => facts.note_vibrato,
        DELAY_BYTE => facts.vibrato_delay,
        TIMER_BYTE => facts.own_timer || facts.first_holds,
        FIRST_WAVE_BYTE => facts.own_wave,
        _ => true,
    }
}

/// The bytes of a field of all instruments, where it isn't read.
fn unread(packed: &PackedSong, field: usize) -> u32
    requires { field < 9 }
    ensures size { result ≡ unread packed.now field }
    ensures within { result ≤ length packed.now.instruments }
    ensures most { result ≤ 63 }
{
    if is_read(packed, field) {
        0
    } else {
        packed.instruments.as_slice().len() as u32
    }
}

/// The bytes of instruments that no line of the player reads, and that stand nowhere in an image.
pub fn unread_size(packed: &PackedSong) -> u32
    ensures size { result ≡ unread_size packed.now }
    ensures within { result ≤ 6 * length packed.now.instruments }
    ensures most { result ≤ 378 }
{
    unread(packed, PULSE_BYTE)
        + unread(packed, FILTER_BYTE)
        + unread(packed, VIBRATO_BYTE)
        + unread(packed, DELAY_BYTE)
        + unread(packed, TIMER_BYTE)
        + unread(packed, FIRST_WAVE_BYTE)
}

/// The bytes of the orderlists' addresses, where they are in no list: one subtune alone has them in its variables.
pub fn unlisted_size(packed: &PackedSong) -> u32
    ensures size { result ≡ unlisted_size packed.now }
    ensures within { result ≤ 6 * length packed.now.subtunes }
    ensures most { result ≤ 192 }
{
    if packed.facts.subtunes {
        0
    } else {
        6 * packed.subtunes.as_slice().len() as u32
    }
}

/// Whether the number stands of the first instrument that holds its gate before a note: where the song has such a one,
/// and its instruments stand in the order of what they hold.
pub fn has_gate_from(packed: &PackedSong) -> bool
    ensures { result ≡ has_gate_from packed.now }
{
    packed.facts.legato && !packed.facts.first_holds
}

/// Whether that of the first stands that holds its envelope, or its gate as well.
pub fn has_envelope_from(packed: &PackedSong) -> bool
    ensures { result ≡ has_envelope_from packed.now }
{
    packed.facts.no_hard_restart && !packed.facts.first_holds
}

/// The bytes that stand alone for all instruments: a gateoff timer where no two that the song uses differ in it, a
/// first waveform where no two differ in that, and the numbers from which on they hold the gate and the envelope.
pub fn shared_size(packed: &PackedSong) -> u32
    ensures size { result ≡ shared_size packed.now }
    ensures most { result ≤ 4 }
{
    u32::from(!packed.facts.own_timer)
        + u32::from(!packed.facts.own_wave)
        + u32::from(has_gate_from(packed))
        + u32::from(has_envelope_from(packed))
}

/// The bytes of a packed song that stand in an image: those of the fields of instruments that no line reads are left
/// out, and the addresses of the orderlists of one subtune alone; those that stand alone for all instruments come in.
pub fn bytes_read(packed: &PackedSong) -> u32
    ensures size { result ≡ bytes_read packed.now }
    ensures most { result ≤ 81043 }
{
    packed.size() + shared_size(packed) - unread_size(packed) - unlisted_size(packed)
}

/// How many zeros stand in front of the frequencies: as many as there are numbers below the first one that the song
/// asks for, less the two zeros and the bytes that are read of the packed song. The slides of calculated speeds, which
/// stand in front of them too, aren't counted: a song that has these asks for all numbers from 0 on, so it has no gap.
pub fn gap_size(packed: &PackedSong) -> u32
    ensures size { result ≡ gap_size packed.now }
    ensures most { result ≤ packed.now.numbers.first }
{
    let front = 2 + bytes_read(packed);
    u32::from(packed.numbers.first).saturating_sub(front)
}
