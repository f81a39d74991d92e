//! The texts of the player: what a frame does before its voices, what it does for a voice, and what begins a subtune.

ghost use Rattle.std.specs.Prelude.{◌≡◌, ◌≤◌, IfOk};
ghost use Rattle.cpu6502.specs.declared.mnemonic.Mnemonic.TheVariants.{Lda, Ldx};
ghost use Rattle.scopes.specs.declared.line.Line.TheVariants.{With};
ghost use Rattle.scopes.specs.declared.line.Operand.TheVariants.{Number};
ghost use Rattle.player_text.specs.Texts.{filter_lines, voice_lines, load_last, init_lines};

use crate::filter::FILTER;
use crate::init::{
    FUNK_STARTED, REGISTERS_CLEARED, SUBTUNE_TAKEN, TEMPO_STARTED, TIMER_HIGH_SET, TIMER_LOW_SET,
    VARIABLES_CLEARED, VOICE_STARTED, VOICES_STARTED,
};
use crate::pieces::{joined, pieces};
use crate::voice::VOICE;
use base::{Items, NoMemory};
use player_memory::conditions::{FUNK_TEMPO, TIMED};
use scopes::{Line, Mnemonic, Operand};
use std::alloc::Global;

/// The numbers with which a subtune begins.
#[derive(Clone, Copy, Debug)]
pub struct Start {
    /// The frames of a row, less one: of each voice, and as second funk tempo.
    pub tempo: u8,
    /// The first funk tempo, less one.
    pub funk: u8,
    /// The low byte of the timer.
    pub timer_low: u8,
    /// The high byte of the timer.
    pub timer_high: u8,
}

/// The lines of what a frame does before its voices: the filter. No register is rested on.
///
/// # Errors
///
/// Out of memory.
pub fn filter(alloc: Global) -> Result<Items<Line>, NoMemory>
    ensures { IfOk result (λ lines. lines ≡ filter_lines) }
{
    joined(alloc, &[FILTER])
}

/// The lines of a voice in a frame. X is 7 times the voice's number, and no other register is rested on.
///
/// # Errors
///
/// Out of memory.
pub fn voice(alloc: Global) -> Result<Items<Line>, NoMemory>
    ensures { IfOk result (λ lines. lines ≡ voice_lines) }
{
    joined(alloc, VOICE)
}

/// Takes a number into A.
fn load(number: u8) -> Line
    ensures { result ≡ With Lda (Number number) }
{
    Line::With(Mnemonic::Lda, Operand::Number(number))
}

/// Takes the number of bytes that stand behind the first of the cleared ones into X.
fn load_last(cleared: u8) -> Line
    requires { 1 ≤ cleared }
    ensures { result ≡ load_last cleared }
{
    Line::With(Mnemonic::Ldx, Operand::Number(cleared - 1))
}

/// The lines that begin a subtune, where it clears so many bytes of the variables, 1 to 92. A is the subtune's number,
/// counted from 0, where there are several, and no other register is rested on.
///
/// # Errors
///
/// Out of memory.
pub fn init(alloc: Global, start: Start, cleared: u8) -> Result<Items<Line>, NoMemory>
    requires { 1 ≤ cleared }
    ensures { IfOk result (λ lines. lines ≡ init_lines start cleared) }
{
    let timer_low = &[load(start.timer_low)];
    let timer_high = &[load(start.timer_high)];
    let last_cleared = &[load_last(cleared)];
    let funk = &[load(start.funk)];
    let each_voice = &[Line::Loop(3)];
    let tempo = &[load(start.tempo)];
    let no_more = &[Line::End];
    let lines: &[&[Line]] = pieces! {
        put SUBTUNE_TAKEN;
        when TIMED {
            put timer_low;
            put TIMER_LOW_SET;
            put timer_high;
            put TIMER_HIGH_SET;
        }
        put REGISTERS_CLEARED;
        put last_cleared;
        put VARIABLES_CLEARED;
        when FUNK_TEMPO { // Stores FUNK_ONE, which nothing reads without it; keeps Y.
            put funk;
            put FUNK_STARTED;
        }
        put VOICES_STARTED;
        put each_voice;
        put VOICE_STARTED;
        put tempo;
        put TEMPO_STARTED;
        put no_more;
    };
    joined(alloc, &[lines])
}
