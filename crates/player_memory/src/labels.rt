//! The labels of the player's bytes and lists.
//!
//! A variable's label is one of the numbers below 113. The labels of a voice stand in five groups, each of 7 for the first
//! voice, 7 for the second and 7 for the third, so that they are 7 apart as the voices' SID registers are; in the last
//! group a voice has 6, and the label that is left is one of all voices. Which variables have a byte, and where these
//! stand, says `variable_places`.

/// The mask `$FE` or `$FF` that goes over the waveform.
pub const GATE: u16 = 0;
/// The frames of a row, less one; 0 and 1 choose one of two funk tempos.
pub const TEMPO: u16 = 1;
/// The second voice's, where it is set for all voices.
pub const TEMPO_TWO: u16 = 8;
/// The third voice's.
pub const TEMPO_THREE: u16 = 15;
/// The low byte of the place before the packed pattern.
pub const PATTERN_LOW: u16 = 2;
/// The high byte of that place.
pub const PATTERN_HIGH: u16 = 3;
/// The low byte of the orderlist's address.
pub const ORDER_LOW: u16 = 4;
/// The high byte of the orderlist's address.
pub const ORDER_HIGH: u16 = 5;
/// The instrument.
pub const INSTRUMENT: u16 = 6;
/// Rests that are left behind the row that was fetched last.
pub const REST: u16 = 21;
/// Where the next entry stands in the packed pattern, counted from 1; 0 says that the pattern is through, and that the
/// orderlist hasn't been walked for the next one.
pub const OFFSET: u16 = 22;
/// Frames until the row is done.
pub const TICK: u16 = 23;
/// How many frames before it the next row is fetched.
pub const GATE_TIMER: u16 = 24;
/// The place in the orderlist behind the pattern's number.
pub const ORDER_PLACE: u16 = 25;
/// The note that sounds, mod 128.
pub const NOTE: u16 = 26;
/// The note that waits, 0 for none.
pub const NEW_NOTE: u16 = 27;
/// The fetched row's command, 0 to 15.
pub const NEW_COMMAND: u16 = 42;
/// Its parameter, where the command isn't 0.
pub const NEW_PARAM: u16 = 43;
/// The command that runs in each frame, 0 to 4.
pub const COMMAND: u16 = 44;
/// Its parameter.
pub const PARAM: u16 = 45;
/// Attack and decay.
pub const AD: u16 = 46;
/// Sustain and release.
pub const SR: u16 = 47;
/// The vibrato's time.
pub const VIB_TIME: u16 = 48;
/// Frames until the instrument's vibrato begins, less one; 255 for none.
pub const VIB_DELAY: u16 = 63;
/// The waveform.
pub const WAVE: u16 = 64;
/// The transpose, as a byte.
pub const TRANSPOSE: u16 = 65;
/// The low byte of the frequency.
pub const FREQ_LOW: u16 = 66;
/// The high byte of the frequency.
pub const FREQ_HIGH: u16 = 67;
/// The note whose half tone a speed may be taken from.
pub const LAST_NOTE: u16 = 68;
/// The row of the wave program, 0 for none.
pub const WAVE_POINTER: u16 = 69;
/// Frames that a delay has waited.
pub const WAVE_TIME: u16 = 84;
/// The row of the pulse program, 0 for none.
pub const PULSE_POINTER: u16 = 85;
/// Frames that a row of it still runs.
pub const PULSE_TIME: u16 = 86;
/// The low byte of the pulse width.
pub const PULSE_LOW: u16 = 87;
/// The high byte of the pulse width: its low four bits count.
pub const PULSE_HIGH: u16 = 88;
/// How often the pattern is still to be played behind the play that is on.
pub const REPEAT: u16 = 89;

/// The row of the filter program, 0 for none.
pub const FILTER_POINTER: u16 = 90;
/// Frames that a row of it still runs.
pub const FILTER_TIME: u16 = 97;
/// The filter's kind, in the upper four bits.
pub const FILTER_TYPE: u16 = 104;
/// The filter's resonance and voices.
pub const FILTER_CONTROL: u16 = 105;
/// The filter's cutoff.
pub const CUTOFF: u16 = 106;
/// The volume, 0 to 15.
pub const VOLUME: u16 = 107;
/// Whether a command of the wave table is lent to the effect step, 0 or 1.
pub const LENT: u16 = 108;
/// The voice's own command meanwhile.
pub const KEPT_COMMAND: u16 = 109;
/// The voice's own parameter meanwhile. Where the pulse step is left out at tick 0 between two patterns, it is also
/// what the fetch of a row remembers for that: 0 exactly at tick 0 of a pattern's first row.
pub const KEPT_PARAM: u16 = 110;
/// The first funk tempo.
pub const FUNK_ONE: u16 = 111;
/// The second funk tempo, behind the first.
pub const FUNK_TWO: u16 = 112;

/// How many variables there are.
pub const VARIABLES: u16 = 113;
/// The first of those that the beginning of a subtune clears. Of those before it, which have a byte in each player, it
/// sets some, and leaves the pattern's address as it is, and with one subtune alone the orderlist's.
pub const FIRST_CLEARED: u16 = REST;

/// The low bytes of the frequencies, at the byte that number 0 has or would have.
pub const FREQUENCY_LOWS: u16 = 128;
/// The byte behind that one.
pub const NEXT_FREQUENCY_LOWS: u16 = 129;
/// The high bytes of the frequencies, at the byte that number 0 has or would have.
pub const FREQUENCY_HIGHS: u16 = 130;
/// The byte behind that one.
pub const NEXT_FREQUENCY_HIGHS: u16 = 131;
/// The right sides of the speed table, from row 0 on.
pub const SPEED_RIGHTS: u16 = 132;
/// The left sides of the speed table, from row 0 on.
pub const SPEED_LEFTS: u16 = 133;
/// The low bytes of the slides, by the row of the speed table: a right side, or a calculated speed.
pub const SLIDES_LOW: u16 = 160;
/// The high bytes of the slides: a left side, or a calculated speed.
pub const SLIDES_HIGH: u16 = 161;
/// The periods of a vibrato, by the row of the speed table: a left side without bit 7.
pub const PERIODS: u16 = 134;
/// The byte before the left sides of the wave table. A delay stands there as `$E0` and its frames, a waveform below
/// `$10` as itself, and each other left side as it is.
pub const WAVE_LEFTS: u16 = 135;
/// The first of them.
pub const NEXT_WAVE_LEFTS: u16 = 136;
/// The byte before the right sides of the wave table, which stand there with bit 7 turned, but for commands and jumps.
pub const WAVE_RIGHTS: u16 = 137;
/// The first of them.
pub const NEXT_WAVE_RIGHTS: u16 = 138;
/// The byte before the left sides of the pulse table.
pub const PULSE_LEFTS: u16 = 139;
/// The first of them.
pub const NEXT_PULSE_LEFTS: u16 = 140;
/// The byte before the right sides of the pulse table.
pub const PULSE_RIGHTS: u16 = 141;
/// The byte before the left sides of the filter table.
pub const FILTER_LEFTS: u16 = 142;
/// The first of them.
pub const NEXT_FILTER_LEFTS: u16 = 143;
/// The byte before the right sides of the filter table.
pub const FILTER_RIGHTS: u16 = 144;
/// The byte before the instruments' attack and decay.
pub const ADS: u16 = 145;
/// The byte before the instruments' sustain and release.
pub const SRS: u16 = 146;
/// The byte before the instruments' rows of the wave table.
pub const WAVES: u16 = 147;
/// The byte before the instruments' rows of the pulse table.
pub const PULSES: u16 = 148;
/// The byte before the instruments' rows of the filter table.
pub const FILTERS: u16 = 149;
/// The byte before the instruments' rows of the speed table.
pub const VIBRATOS: u16 = 150;
/// The byte before the instruments' vibrato delays, each less one.
pub const DELAYS: u16 = 151;
/// The byte before the instruments' gateoff timers.
pub const GATE_TIMERS: u16 = 152;
/// The byte before the instruments' first waveforms.
pub const FIRST_WAVES: u16 = 153;
/// The low bytes of the orderlists' addresses.
pub const ORDERS_LOW: u16 = 154;
/// The high bytes of the orderlists' addresses.
pub const ORDERS_HIGH: u16 = 155;
/// The low bytes of the places before the patterns.
pub const PATTERNS_LOW: u16 = 156;
/// The high bytes of the places before the patterns.
pub const PATTERNS_HIGH: u16 = 157;
/// The low six bits of the gateoff timer, where all instruments that the song uses have the same.
pub const ONE_TIMER: u16 = 158;
/// The first waveform, where all of them have the same.
pub const ONE_WAVE: u16 = 159;
/// The number of the first instrument that holds its gate before a note, where they stand in the order of what they
/// hold.
pub const GATE_FROM: u16 = 162;
/// The number of the first that holds its envelope, or its gate as well.
pub const ENVELOPE_FROM: u16 = 163;

/// The first of the labels of the orderlists: three for each subtune.
pub const ORDERS: u16 = 256;
/// The first of the labels of the patterns.
pub const PATTERNS: u16 = 512;
