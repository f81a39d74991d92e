//! The lines of an entrance.

ghost use Rattle.std.specs.Prelude.{◌≡◌, ◌+◌, ◌≤◌, ◌++◌, [], ◌∷◌, true, length, Option, OnOk};
ghost use Rattle.std.specs.Prelude.{OnErr, IfOk};
ghost use Rattle.std.specs.Option.{option_copied};
ghost use Rattle.cpu6502.specs.declared.mnemonic.Mnemonic.TheVariants.{Rts};
ghost use Rattle.cpu6502.specs.declared.mnemonic.Mode.TheVariants.{Implied};
ghost use Rattle.asm6502.specs.declared.lines.Operand.TheVariants.{Nothing};
ghost use Rattle.scopes.specs.Trees.{tree_of};
ghost use Rattle.scope_lines.specs.Instructions.{code};
ghost use Rattle.scope_lines.specs.Readings.{is_block, holds_in};
ghost use Rattle.scope_calls.specs.Entrances.{lead_lines, first_place, voices_place, call_lines, entrance_lines};
ghost use Rattle.scope_calls.specs.Entrances.{entrance_size};
ghost use Rattle.scope_calls.specs.Written.{entrance_of, is_voice, voice_length};

use asm6502::{Item, Operand};
use base::NoMemory;
use cpu6502::{Mnemonic, Mode};
use scope_lines::{Conditions, Line, Listing, Place, lower, size_of};
use std::alloc::Global;

/// How many bytes behind the label the block begins that is done once: behind `CLD`.
const FIRST_PLACE: u16 = 1;

/// What an entrance is set up with, beside its blocks.
#[derive(Clone, Copy, Debug)]
pub struct Setup {
    /// The label in front of the entrance, from which its places are counted.
    pub label: u16,
    /// Whether its calls come with a number in A, on which the block that is done once may rest. It changes no line.
    pub numbered: bool,
    /// The place of the pointer's low byte in page 0, 0 to 254.
    pub pointer: u8,
    /// The conditions that hold.
    pub conditions: Conditions,
}

/// A line of the assembler, in the part that is always kept.
fn code(mnemonic: Mnemonic, mode: Mode, operand: Operand) -> asm6502::Line
    ensures { result ≡ code mnemonic mode operand }
{
    asm6502::Line {
        part: 255,
        item: Item::Code(mnemonic, mode, operand),
    }
}

/// The line in front of the first block.
fn lead(alloc: Global) -> Result<Listing, NoMemory>
    ensures { IfOk result (λ listing. listing ≡ lead_lines) }
{
    let mut lines = Listing::new(alloc);
    lines.push(code(Mnemonic::Cld, Mode::Implied, Operand::Nothing))?;
    Ok(lines)
}

/// The lines that call the voices' block, which stands 12 bytes further on.
fn calls(alloc: Global, label: u16, place: u16) -> Result<Listing, NoMemory>
    requires room { place + 12 ≤ 65535 }
    ensures { IfOk result (λ listing. listing ≡ call_lines label place) }
{
    let mut lines = Listing::new(alloc);
    lines.push(code(Mnemonic::Ldx, Mode::Immediate, Operand::Number(0)))?;
    lines.push(code(
        Mnemonic::Jsr,
        Mode::Absolute,
        Operand::Label(label, place + 12),
    ))?;
    lines.push(code(Mnemonic::Ldx, Mode::Immediate, Operand::Number(7)))?;
    lines.push(code(
        Mnemonic::Jsr,
        Mode::Absolute,
        Operand::Label(label, place + 12),
    ))?;
    lines.push(code(Mnemonic::Ldx, Mode::Immediate, Operand::Number(14)))?;
    Ok(lines)
}

/// The bytes of an entrance's lines, of which those are kept whose conditions hold.
pub fn entrance_size(setup: Setup, first: &[Line], voice: Option<&[Line]>) -> u32
    requires first { is_block first.now ≡ true }
    requires room { length first.now ≤ 20000 }
    requires voice { is_voice (option_copied voice) ≡ true }
    requires voice_room { voice_length (option_copied voice) ≤ 20000 }
    ensures { result ≡ entrance_size (entrance_of setup first.now (option_copied voice.entry)) }
{
    let once = u32::from(FIRST_PLACE) + u32::from(size_of(first, setup.conditions)) + 1;
    match voice {
        None => once,
        Some(voice) => once + 12 + u32::from(size_of(voice, setup.conditions)),
    }
}

/// Appends the lines of an entrance, which is to stand behind its label, of which those are kept whose conditions hold.
///
/// # Errors
///
/// Out of memory: the listing is as before.
pub fn push_entrance(
    alloc: Global,
    listing: &mut Listing,
    setup: Setup,
    first: &[Line],
    voice: Option<&[Line]>,
) -> Result<(), NoMemory>
    requires first { is_block first.now ≡ true }
    requires room { length first.now ≤ 10000 }
    requires voice { is_voice (option_copied voice) ≡ true }
    requires voice_room { voice_length (option_copied voice) ≤ 10000 }
    ensures lines { OnOk result (listing.new
        ≡ listing.old ++ entrance_lines (entrance_of setup first.now (option_copied voice.entry))) }
    ensures err { OnErr result (listing.new ≡ listing.old) }
{
    let around = Place {
        label: setup.label,
        first: FIRST_PLACE,
        pointer: setup.pointer,
        conditions: setup.conditions,
    };
    let mut lines = lead(alloc)?;
    let mut block = lower(alloc, first, around)?;
    lines.append(&mut block)?;
    if let Some(voice) = voice {
        let place = FIRST_PLACE + size_of(first, setup.conditions);
        let mut call = calls(alloc, setup.label, place)?;
        lines.append(&mut call)?;
        let mut turn = lower(
            alloc,
            voice,
            Place {
                first: place + 12,
                ..around
            },
        )?;
        lines.append(&mut turn)?;
    }
    lines.push(code(Mnemonic::Rts, Mode::Implied, Operand::Nothing))?;
    listing.append(&mut lines)
}
