//! What the playroutine keeps from one frame to the next.

ghost use Rattle.song_model.specs.declared.orders.Order.{Order};
ghost use Rattle.song_model.specs.declared.orders.Subtune.{Subtune};
ghost use Rattle.play_model.specs.State.{start_voice, start_state};
ghost use Rattle.play_model.specs.StandsFor.{VoiceStandsFor, StateStandsFor};

use crate::{LastNote, Options, PulseWidth};
use song_model::OrderPlace;

/// What each voice keeps. Pointers are numbers of table rows, counted from 1, 0 for none; times are in frames.
#[derive(Clone, Copy, Debug, PartialEq, Eq)]
pub struct VoiceState {
    /// Where it stands in its orderlist.
    pub place: OrderPlace,
    /// The next row, counted from 0, in the pattern of the play that is on.
    pub row: u8,
    /// Frames until the next row.
    pub tick: u8,
    /// The tick at which the row is fetched.
    pub gate_timer: u8,
    /// Its instrument, counted from 1.
    pub instrument: u8,
    /// The note that sounds, in half tones from C-0.
    pub note: u8,
    /// The note that waits, `$60` for C-0; 0 for none.
    pub new_note: u8,
    /// The command of the fetched row.
    pub new_command: u8,
    /// The parameter of the fetched row.
    pub new_param: u8,
    /// The command that runs in each frame, 0 to 4.
    pub command: u8,
    /// Its parameter.
    pub param: u8,
    /// Attack and decay.
    pub ad: u8,
    /// Sustain and release.
    pub sr: u8,
    /// Where the vibrato stands in its period; odd on its way down.
    pub vib_time: u8,
    /// Frames until the instrument's vibrato begins, this one counted: it runs at 1, where the number stays; 0 for
    /// never.
    pub vib_delay: u8,
    /// The waveform.
    pub wave: u8,
    /// The mask that goes over the waveform: `$FE` or `$FF`.
    pub gate: u8,
    /// The frequency, as the SID has it.
    pub freq: u16,
    /// The note whose half tone a speed may be taken from.
    pub last_note: LastNote,
    /// The row of its wave program.
    pub wave_ptr: u8,
    /// How long the wave program has waited at its row.
    pub wave_time: u8,
    /// The row of its pulse program.
    pub pulse_ptr: u8,
    /// How long the pulse program goes on with its row; 0 where it begins a row.
    pub pulse_time: u8,
    /// The pulse width.
    pub pulse: PulseWidth,
}

/// What the three voices share. A tempo of 2 and more is the length of a row less 1, in frames; 0 and 1 are the funk
/// tempos, whose rows have the two funk values in turn.
#[derive(Clone, Copy, Debug, PartialEq, Eq)]
pub struct CommonState {
    /// The tempo of channel 1.
    pub tempo_one: u8,
    /// The tempo of channel 2.
    pub tempo_two: u8,
    /// The tempo of channel 3.
    pub tempo_three: u8,
    /// The length of a row with tempo 0, less 1.
    pub funk_one: u8,
    /// The length of a row with tempo 1, less 1.
    pub funk_two: u8,
    /// The row of the filter program.
    pub filter_ptr: u8,
    /// How long the filter program goes on with its row; 0 where it begins a row.
    pub filter_time: u8,
    /// The filter's kind: bits 4 to 6 of register 24.
    pub filter_type: u8,
    /// Resonance and routing: register 23.
    pub filter_control: u8,
    /// The high byte of the cutoff frequency: register 22.
    pub cutoff: u8,
    /// The volume: the low four bits of register 24.
    pub volume: u8,
}

/// The state of the playroutine between two frames.
#[derive(Clone, Copy, Debug, PartialEq, Eq)]
pub struct PlayState {
    /// What the voices share.
    pub common: CommonState,
    /// The voice of channel 1.
    pub one: VoiceState,
    /// The voice of channel 2.
    pub two: VoiceState,
    /// The voice of channel 3.
    pub three: VoiceState,
}

impl PlayState {
    /// The state before the first frame.
    pub fn start(options: Options) -> PlayState
        ensures { (subtune : Subtune) → StateStandsFor subtune result (start_state options) }
    {
        let calls = options.speed.calls();
        PlayState {
            common: CommonState {
                tempo_one: 6 * calls - 1,
                tempo_two: 6 * calls - 1,
                tempo_three: 6 * calls - 1,
                funk_one: 9 * calls - 1,
                funk_two: 6 * calls - 1,
                filter_ptr: 0,
                filter_time: 0,
                filter_type: 0,
                filter_control: 0,
                cutoff: 0,
                volume: 15,
            },
            one: start_voice(),
            two: start_voice(),
            three: start_voice(),
        }
    }
}

/// A voice before the first frame.
#[tactic(auto, unfolding(song_model::specs::Places::place_of))]
fn start_voice() -> VoiceState
    ensures { (order : Order) → VoiceStandsFor order result start_voice }
{
    VoiceState {
        place: OrderPlace {
            place: 0,
            transpose: 0,
            repeat: 0,
        },
        row: 0,
        tick: 1,
        gate_timer: 0,
        instrument: 1,
        note: 0,
        new_note: 0,
        new_command: 0,
        new_param: 0,
        command: 0,
        param: 0,
        ad: 0,
        sr: 0,
        vib_time: 0,
        vib_delay: 0,
        wave: 0,
        gate: 0xfe,
        freq: 0,
        last_note: LastNote::of(0),
        wave_ptr: 0,
        wave_time: 0,
        pulse_ptr: 0,
        pulse_time: 0,
        pulse: PulseWidth::of(0),
    }
}
