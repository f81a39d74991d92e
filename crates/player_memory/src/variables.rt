//! What the player's variables hold of the state of the playroutine: a table with a row for each of them, which says
//! too under which condition it does. Where that doesn't hold no line reads the byte, and most that store it are left
//! out.
//!
//! Of a voice's other variables each says where it is in its orderlist and in its pattern; those of all voices that
//! have no row are what one part of the code leaves for a later one of the same frame.

use crate::conditions::{
    EFFECTS, FILTER_TABLE, FILTER_USED, FUNK_CHOICE, FUNK_TEMPO, INSTRUMENT_VIBRATO,
    NOTE_DEPENDENT, NOTE_FILTER, NOTE_PULSE, OWN_TIMER, PULSE_TABLE, REPEATS, ROW_COMMAND,
    ROW_ONCE, ROW_SLIDE, ROW_TONE, SET_CUTOFF, SET_FILTER_CONTROL, SET_FILTER_POINTER,
    SET_PULSE_POINTER, SET_VOLUME, SKIP_FIRST, SWINGS, TRANSPOSES, VIBRATO_DELAY, WAVE_COMMAND,
    WAVE_DELAY,
};
use crate::labels::{
    AD, COMMAND, CUTOFF, FILTER_CONTROL, FILTER_POINTER, FILTER_TIME, FILTER_TYPE, FREQ_HIGH,
    FREQ_LOW, FUNK_ONE, FUNK_TWO, GATE, GATE_TIMER, INSTRUMENT, KEPT_COMMAND, KEPT_PARAM,
    LAST_NOTE, LENT, NEW_COMMAND, NEW_NOTE, NEW_PARAM, NOTE, OFFSET, ORDER_HIGH, ORDER_LOW,
    ORDER_PLACE, PARAM, PATTERN_HIGH, PATTERN_LOW, PULSE_HIGH, PULSE_LOW, PULSE_POINTER,
    PULSE_TIME, REPEAT, REST, SR, TEMPO, TICK, TRANSPOSE, VIB_DELAY, VIB_TIME, VOLUME, WAVE,
    WAVE_POINTER, WAVE_TIME,
};

/// Under which condition a byte holds what it holds.
#[derive(Clone, Copy, Debug, PartialEq, Eq)]
pub enum Kept {
    /// Always.
    Always,
    /// Where the lines under this condition are kept. Where they aren't, no line of the player reads it.
    Where(u8),
    /// Where the lines under this condition are kept. Where they aren't, what it would hold is this number.
    Else(u8, u8),
}

/// What of a voice's state a byte holds.
#[derive(Clone, Copy, Debug, PartialEq, Eq)]
pub enum VoiceByte {
    /// Frames until the row is done.
    Tick,
    /// How many frames before it the next row is fetched.
    GateTimer,
    /// The instrument.
    Instrument,
    /// The note that sounds, mod 128.
    Note,
    /// The note that waits, 0 for none.
    NewNote,
    /// The command of the row that was fetched last.
    NewCommand,
    /// Its parameter, which counts where there is a command.
    NewParam,
    /// The command that runs.
    Command,
    /// Its parameter.
    Param,
    /// Attack and decay.
    Ad,
    /// Sustain and release.
    Sr,
    /// The vibrato's time.
    VibTime,
    /// The frames until the instrument's vibrato begins, less one; 255 for none.
    VibDelay,
    /// The waveform.
    Wave,
    /// The mask that goes over it.
    Gate,
    /// The frequency's low byte.
    FreqLow,
    /// The frequency's high byte.
    FreqHigh,
    /// The note whose half tone a speed may be taken from.
    LastNote,
    /// The row of the wave program.
    WavePtr,
    /// Frames that its delay has waited.
    WaveTime,
    /// The row of the pulse program.
    PulsePtr,
    /// Frames that it still runs.
    PulseTime,
    /// The pulse width's low byte.
    PulseLow,
    /// The pulse width's high byte, of which the low four bits count.
    PulseHigh,
    /// The voice's tempo.
    Tempo,
}

/// What of the state that the voices share a byte holds.
#[derive(Clone, Copy, Debug, PartialEq, Eq)]
pub enum CommonByte {
    /// The row of the filter program.
    FilterPtr,
    /// Frames that it still runs.
    FilterTime,
    /// The filter's kind.
    FilterType,
    /// The filter's resonance and voices.
    FilterControl,
    /// The filter's cutoff.
    Cutoff,
    /// The volume.
    Volume,
    /// The first funk tempo.
    FunkOne,
    /// The second funk tempo.
    FunkTwo,
}

/// The labels of a voice's bytes, what each of them holds, and where it does.
pub const VOICE_BYTES: [(u16, VoiceByte, Kept); 25] = [
    (TICK, VoiceByte::Tick, Kept::Always),
    (GATE_TIMER, VoiceByte::GateTimer, Kept::Where(OWN_TIMER)),
    (INSTRUMENT, VoiceByte::Instrument, Kept::Always),
    (NOTE, VoiceByte::Note, Kept::Always),
    (NEW_NOTE, VoiceByte::NewNote, Kept::Always),
    (NEW_COMMAND, VoiceByte::NewCommand, Kept::Where(ROW_COMMAND)),
    (NEW_PARAM, VoiceByte::NewParam, Kept::Where(ROW_COMMAND)),
    (COMMAND, VoiceByte::Command, Kept::Where(EFFECTS)),
    (PARAM, VoiceByte::Param, Kept::Where(EFFECTS)),
    (AD, VoiceByte::Ad, Kept::Always),
    (SR, VoiceByte::Sr, Kept::Always),
    (VIB_TIME, VoiceByte::VibTime, Kept::Where(SWINGS)),
    (
        VIB_DELAY,
        VoiceByte::VibDelay,
        Kept::Where(INSTRUMENT_VIBRATO),
    ),
    (WAVE, VoiceByte::Wave, Kept::Always),
    (GATE, VoiceByte::Gate, Kept::Always),
    (FREQ_LOW, VoiceByte::FreqLow, Kept::Always),
    (FREQ_HIGH, VoiceByte::FreqHigh, Kept::Always),
    (LAST_NOTE, VoiceByte::LastNote, Kept::Where(NOTE_DEPENDENT)),
    (WAVE_POINTER, VoiceByte::WavePtr, Kept::Always),
    (WAVE_TIME, VoiceByte::WaveTime, Kept::Where(WAVE_DELAY)),
    (PULSE_POINTER, VoiceByte::PulsePtr, Kept::Always),
    (PULSE_TIME, VoiceByte::PulseTime, Kept::Always),
    (PULSE_LOW, VoiceByte::PulseLow, Kept::Else(PULSE_TABLE, 0)),
    (PULSE_HIGH, VoiceByte::PulseHigh, Kept::Else(PULSE_TABLE, 0)),
    (TEMPO, VoiceByte::Tempo, Kept::Always),
];

/// The labels of the bytes of all voices, what each of them holds, and where it does.
pub const COMMON_BYTES: [(u16, CommonByte, Kept); 8] = [
    (FILTER_POINTER, CommonByte::FilterPtr, Kept::Always),
    (FILTER_TIME, CommonByte::FilterTime, Kept::Always),
    (
        FILTER_TYPE,
        CommonByte::FilterType,
        Kept::Else(FILTER_USED, 0),
    ),
    (
        FILTER_CONTROL,
        CommonByte::FilterControl,
        Kept::Else(FILTER_USED, 0),
    ),
    (CUTOFF, CommonByte::Cutoff, Kept::Else(FILTER_USED, 0)),
    (VOLUME, CommonByte::Volume, Kept::Else(SET_VOLUME, 15)),
    (FUNK_ONE, CommonByte::FunkOne, Kept::Where(FUNK_TEMPO)),
    (FUNK_TWO, CommonByte::FunkTwo, Kept::Where(FUNK_TEMPO)),
];

/// The labels of the bytes that say where a voice is in its orderlist and in its pattern.
pub const SONG_BYTES: [u16; 9] = [
    REST,
    OFFSET,
    PATTERN_LOW,
    PATTERN_HIGH,
    ORDER_LOW,
    ORDER_HIGH,
    ORDER_PLACE,
    TRANSPOSE,
    REPEAT,
];

/// Those of them with which each voice begins a subtune. It has no pattern yet, so what the bytes of a pattern's place
/// hold then says nothing.
pub const FIRST_SONG_BYTES: [u16; 7] = [
    REST,
    OFFSET,
    ORDER_LOW,
    ORDER_HIGH,
    ORDER_PLACE,
    TRANSPOSE,
    REPEAT,
];

/// The labels of a voice's bytes, each with conditions: where a line that names it is kept, one of them holds. One
/// without conditions has a byte in each player. The first seven are such: they are the bytes that the beginning of a
/// subtune doesn't clear.
pub const VOICE_VARIABLES: [(u16, &[u8]); 34] = [
    (GATE, &[]),
    (TEMPO, &[]),
    (PATTERN_LOW, &[]),
    (PATTERN_HIGH, &[]),
    (ORDER_LOW, &[]),
    (ORDER_HIGH, &[]),
    (INSTRUMENT, &[]),
    (REST, &[]),
    (OFFSET, &[]),
    (TICK, &[]),
    (GATE_TIMER, &[OWN_TIMER]),
    (ORDER_PLACE, &[]),
    (NOTE, &[]),
    (NEW_NOTE, &[]),
    (NEW_COMMAND, &[ROW_COMMAND, ROW_TONE]),
    (NEW_PARAM, &[ROW_COMMAND, ROW_ONCE]),
    (COMMAND, &[EFFECTS, WAVE_COMMAND, ROW_SLIDE]),
    (PARAM, &[EFFECTS, WAVE_COMMAND]),
    (AD, &[]),
    (SR, &[]),
    (VIB_TIME, &[SWINGS]),
    (VIB_DELAY, &[INSTRUMENT_VIBRATO, VIBRATO_DELAY]),
    (WAVE, &[]),
    (TRANSPOSE, &[TRANSPOSES]),
    (FREQ_LOW, &[]),
    (FREQ_HIGH, &[]),
    (LAST_NOTE, &[NOTE_DEPENDENT]),
    (WAVE_POINTER, &[]),
    (WAVE_TIME, &[WAVE_DELAY]),
    (PULSE_POINTER, &[PULSE_TABLE, NOTE_PULSE, SET_PULSE_POINTER]),
    (PULSE_TIME, &[PULSE_TABLE, NOTE_PULSE, SET_PULSE_POINTER]),
    (PULSE_LOW, &[PULSE_TABLE]),
    (PULSE_HIGH, &[PULSE_TABLE]),
    (REPEAT, &[REPEATS]),
];

/// The labels of the bytes of all voices, each with such conditions.
pub const SHARED_VARIABLES: [(u16, &[u8]); 11] = [
    (
        FILTER_POINTER,
        &[
            FILTER_TABLE,
            NOTE_FILTER,
            SET_FILTER_POINTER,
            SET_FILTER_CONTROL,
        ],
    ),
    (
        FILTER_TIME,
        &[FILTER_TABLE, NOTE_FILTER, SET_FILTER_POINTER],
    ),
    (FILTER_TYPE, &[FILTER_USED, FILTER_TABLE]),
    (
        FILTER_CONTROL,
        &[FILTER_USED, FILTER_TABLE, SET_FILTER_CONTROL],
    ),
    (CUTOFF, &[FILTER_USED, FILTER_TABLE, SET_CUTOFF]),
    (VOLUME, &[SET_VOLUME]),
    (LENT, &[WAVE_COMMAND]),
    (KEPT_COMMAND, &[WAVE_COMMAND]),
    (KEPT_PARAM, &[WAVE_COMMAND, SKIP_FIRST]),
    (FUNK_ONE, &[FUNK_TEMPO, FUNK_CHOICE]),
    (FUNK_TWO, &[FUNK_TEMPO, FUNK_CHOICE]),
];
