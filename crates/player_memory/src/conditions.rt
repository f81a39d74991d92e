//! The conditions under which lines of the player are kept.
//!
//! Those from 0 to 23 are the features of a song, by their bits: each holds where the song uses the feature. A command
//! is one of a pattern's row or of the wave table; where a pattern is named, one of a row alone. Behind them stand the
//! options, and then what several features have in common: lines that are kept where the song uses any of them. Those
//! from 34 to 55 are the song's facts, by their numbers, and the last ones what several facts or features have in
//! common.

/// An orderlist transposes.
pub const TRANSPOSES: u8 = 0;
/// An orderlist repeats a pattern.
pub const REPEATS: u8 = 1;
/// Command 1 slides the frequency up.
pub const PORTA_UP: u8 = 2;
/// Command 2 slides the frequency down.
pub const PORTA_DOWN: u8 = 3;
/// Command 3 slides to the note, by a speed.
pub const TONE_PORTA: u8 = 4;
/// Command 3 has parameter 0: it is at the note at once.
pub const TIE_NOTE: u8 = 5;
/// Command 4 has the frequency swing.
pub const VIBRATO: u8 = 6;
/// An instrument has the frequency swing.
pub const INSTRUMENT_VIBRATO: u8 = 7;
/// A speed is calculated from the half tone above the last note.
pub const NOTE_DEPENDENT: u8 = 8;
/// Command 5 sets attack and decay.
pub const SET_AD: u8 = 9;
/// Command 6 sets sustain and release.
pub const SET_SR: u8 = 10;
/// Command 7 sets the waveform.
pub const SET_WAVE: u8 = 11;
/// Command 8 of a pattern sets the row of the wave program.
pub const SET_WAVE_POINTER: u8 = 12;
/// There is a pulse program.
pub const PULSE_TABLE: u8 = 13;
/// Command 9 sets the row of the pulse program.
pub const SET_PULSE_POINTER: u8 = 14;
/// There is a filter program.
pub const FILTER_TABLE: u8 = 15;
/// Command `$A` sets the row of the filter program.
pub const SET_FILTER_POINTER: u8 = 16;
/// Command `$B` sets the filter's resonance and voices.
pub const SET_FILTER_CONTROL: u8 = 17;
/// Command `$C` sets the filter's cutoff.
pub const SET_CUTOFF: u8 = 18;
/// Command `$D` sets the volume.
pub const SET_VOLUME: u8 = 19;
/// Command `$E` of a pattern, or `$F` with 0 or 1, has the voices take turns between two tempos.
pub const FUNK_TEMPO: u8 = 20;
/// Command `$F` of a pattern sets a tempo.
pub const SET_TEMPO: u8 = 21;
/// There is a wave program.
pub const WAVE_TABLE: u8 = 22;
/// A wave program has a command.
pub const WAVE_COMMAND: u8 = 23;

/// The effect step is left out at tick 0.
pub const SKIP_EFFECTS: u8 = 24;
/// The pulse step is left out where a row is fetched.
pub const SKIP_PULSE: u8 = 25;
/// There are several play calls in a picture, so a timer is set.
pub const TIMED: u8 = 26;
/// The pulse step is left out at tick 0 between two patterns.
pub const SKIP_FIRST: u8 = 27;

/// The frequency swings: a command or an instrument has a vibrato.
pub const SWINGS: u8 = 28;
/// The high byte of the frequency climbs: up, to the note, or by a calculated speed.
pub const CLIMB: u8 = 29;
/// The high byte of the frequency drops: down, to the note, or by a calculated speed.
pub const DROP: u8 = 30;
/// The low byte of the frequency rises: up, to the note, or by a vibrato.
pub const RISE: u8 = 31;
/// The low byte of the frequency sinks: down, to the note, or by a vibrato.
pub const SINK: u8 = 32;
/// The note is reached: by a slide, or at once.
pub const FOUND_NOTE: u8 = 33;

/// A row of a pattern has command 3.
pub const ROW_TONE: u8 = 34;
/// A row has one of the commands 1 to 4.
pub const ROW_SLIDE: u8 = 35;
/// A row has one of the commands 5 up.
pub const ROW_ONCE: u8 = 36;
/// An instrument's first waveform is 0, `$FE` or `$FF`.
pub const FIRST_MASK: u8 = 37;
/// An instrument leaves the gate as it is before a note.
pub const LEGATO: u8 = 38;
/// An instrument closes the gate before a note and leaves the envelope.
pub const NO_HARD_RESTART: u8 = 39;
/// A row of the wave table is a delay.
pub const WAVE_DELAY: u8 = 40;
/// A row of a pattern has keyoff or keyon.
pub const GATE_NOTE: u8 = 41;
/// An instrument has a vibrato, which its notes begin.
pub const NOTE_VIBRATO: u8 = 42;
/// An instrument has a delay of its vibrato.
pub const VIBRATO_DELAY: u8 = 43;
/// An instrument has a pulse program, which its notes begin.
pub const NOTE_PULSE: u8 = 44;
/// An instrument has a filter program, which its notes begin.
pub const NOTE_FILTER: u8 = 45;

/// A row of a pattern has command `$F` with `$80` up.
pub const VOICE_TEMPO: u8 = 46;
/// A row has it with 3 to `$7F`.
pub const COMMON_TEMPO: u8 = 47;
/// A row has it with 0 or 1.
pub const FUNK_TURNS: u8 = 48;
/// A row has command `$E`.
pub const FUNK_CHOICE: u8 = 49;

/// Two instruments differ in the low six bits of their gateoff timers.
pub const OWN_TIMER: u8 = 50;
/// Two instruments differ in their first waveforms.
pub const OWN_WAVE: u8 = 51;
/// Two subtunes can be played, or more.
pub const SUBTUNES: u8 = 52;
/// Channel 2 has a row to play that has a note or a command.
pub const VOICE_TWO: u8 = 53;
/// So has channel 3.
pub const VOICE_THREE: u8 = 54;
/// Instrument 1 holds more before its notes than another one.
pub const FIRST_HOLDS: u8 = 55;

/// A row of a pattern has a command: command 3, one that runs, or one that is done once.
pub const ROW_COMMAND: u8 = 56;
/// A row of the wave table is a delay or a command.
pub const SPECIAL_ROW: u8 = 57;
/// An instrument leaves something as it is before a note: the gate, or the envelope alone.
pub const HELD_NOTE: u8 = 58;

/// A command may run at a tick: the song uses one of features 2 to 7, a row has one of the commands 1 to 4, or the wave
/// table a command.
pub const EFFECTS: u8 = 59;
/// Something sets the filter: a program, or one of the commands `$B` and `$C`.
pub const FILTER_USED: u8 = 60;

/// How many conditions there are.
pub const CONDITIONS: u8 = 61;
