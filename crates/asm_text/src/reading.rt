//! From a text to what it assembles to.

ghost use Rattle.std.specs.Prelude.{◌≡◌, ◌≤◌, ◌*◌, ◌⊎◌, length, IfOk, IfErr, OnOk, MatchResult, None, Some};
ghost use Rattle.asm6502.specs.declared.assembled.Assembled.{Assembled as Given};
ghost use Rattle.asm6502.specs.Moving.{IsAssembly};
ghost use Rattle.asm_text.specs.declared.faults.TextFault.{TextFault as Told};
ghost use Rattle.asm_text.specs.declared.faults.TextKind.TheVariants.{BadLine, NoMemory};
ghost use Rattle.asm_text.specs.Laying.{listing_at};
ghost use Rattle.asm_text.specs.Lines.{parts, Say, IsFirstBad, IsListing, IsBadAt, IsLine};
ghost use Rattle.asm_text.specs.Faults.{fault_in, IsFaultOf, Reads};
ghost use Rattle.asm_text.specs.Searching.{AreRight};
ghost use Rattle.asm_text.specs.Steps.{Adds};

use crate::faults::{TextFault, TextKind};
use crate::laying::{MOST_STATEMENTS, listing_at};
use crate::lines::split_line;
use crate::refusing::{far_number, told};
use crate::statements::{Script, Written};
use crate::words::{origin_of, says_nothing, statement_of};
use asm6502::{AsmFault, Assembled, PartSet, assemble};
use std::alloc::Global;

/// The most bytes of a text that is read.
pub const MOST_BYTES: usize = 1_048_576;

/// Reads a text listing: its origin, the bytes that its lines name, and which of them are addresses of labels. The text
/// is within its limit.
///
/// # Errors
///
/// What is wrong with the text, kind by kind in the order of `TextKind`, each at its first line; or out of memory.
pub fn read(alloc: Global, text: &[u8]) -> Result<Assembled, TextFault>
    requires { length text.now ≤ MOST_BYTES }
    // What is answered is what the text's lines name.
    ensures found { IfOk result (Reads text.now) }
    // A fault that is answered is the text's, want of memory aside.
    ensures fault { IfErr result (λ fault. (fault.kind ≡ NoMemory) ⊎ IsFaultOf text.now fault) }
    // Where nothing is wrong with the text only want of memory refuses it.
    ensures only { (given : Given) → Reads text.now given → IfErr result (λ fault. fault.kind ≡ NoMemory) }
    // Where something is wrong it is told.
    ensures exact { (wrong : Told) → IsFaultOf text.now wrong →
        MatchResult result (λ _. ⊥) (λ fault. (fault.kind ≡ NoMemory) ⊎ (fault ≡ wrong)) }
{
    let Said { origin, script } = said_by(alloc, text)?;
    assembled(alloc, origin, script.as_slice())
}

/// What the lines of a text say.
#[derive(Drop)]
struct Said {
    origin: u16,
    script: Script,
}

/// What the lines of a text say.
///
/// # Errors
///
/// The first bad line; or out of memory.
fn said_by(alloc: Global, text: &[u8]) -> Result<Said, TextFault>
    requires { length text.now ≤ MOST_BYTES }
    ensures found { IfOk result (λ said. IsListing text.now said.origin said.script) }
    ensures few { IfOk result (λ said. length said.script ≤ MOST_STATEMENTS) }
    ensures fault { IfErr result (λ fault. (fault.kind ≡ NoMemory)
        ⊎ ((fault.kind ≡ BadLine) × IsBadAt text.now fault.line)) }
{
    let Some((first, rest)) = split_line(text) else {
        return Err(bad_line(1));
    };
    let Some(origin) = origin_of(first) else {
        return Err(bad_line(1));
    };
    let script = script_of(alloc, rest)?;
    Ok(Said { origin, script })
}

/// The statements of the lines behind the first.
///
/// # Errors
///
/// The first bad line; or out of memory.
fn script_of(alloc: Global, text: &[u8]) -> Result<Script, TextFault>
    requires { length text.now ≤ MOST_BYTES }
    ensures found { IfOk result (Say 2 (parts text.now)) }
    ensures few { IfOk result (λ script. 4 * length script ≤ length text.now) }
    ensures fault { IfErr result (λ fault. (fault.kind ≡ NoMemory)
        ⊎ ((fault.kind ≡ BadLine) × IsFirstBad 2 (parts text.now) fault.line)) }
{
    let mut script = Script::new(alloc);
    let mut left = text;
    let mut number = 1;
    while !left.is_empty() {
        number += 1;
        let Some((line, rest)) = split_line(left) else {
            return Err(bad_line(number));
        };
        add_line(&mut script, number, line)?;
        left = rest;
    }
    Ok(script)
}

/// Adds the statement of the line with this number to a script, where the line has one.
///
/// # Errors
///
/// `BadLine` where it is none; or out of memory.
fn add_line(script: &mut Script, number: u32, line: &[u8]) -> Result<(), TextFault>
    ensures added { OnOk result (Adds number line.now script.old script.new) }
    ensures fault { IfErr result (λ fault. (fault.kind ≡ NoMemory)
        ⊎ ((fault.kind ≡ BadLine) × (fault.line ≡ number) × ¬ IsLine line.now)) }
{
    if says_nothing(line) {
        return Ok(());
    }
    match statement_of(line) {
        Some(statement) => {
            script.push(Written {
                line: number,
                statement,
            })?;
            Ok(())
        }
        None => Err(bad_line(number)),
    }
}

/// The fault of a bad line.
fn bad_line(line: u32) -> TextFault
    ensures kind { result.kind ≡ BadLine }
    ensures line { result.line ≡ line }
{
    TextFault {
        line,
        kind: TextKind::BadLine,
    }
}

/// What statements assemble to.
///
/// # Errors
///
/// What is wrong with them; or out of memory.
fn assembled(alloc: Global, origin: u16, script: &[Written]) -> Result<Assembled, TextFault>
    requires few { length script.now ≤ MOST_STATEMENTS }
    requires right { AreRight script.now }
    ensures sound { OnOk result (fault_in origin script.now ≡ None) }
    ensures done { IfOk result (λ done. IsAssembly done 0 origin (listing_at origin script.now)) }
    ensures fault { IfErr result (λ fault. (fault.kind ≡ NoMemory)
        ⊎ (fault_in origin script.now ≡ Some fault)) }
{
    let listing = listing_at(alloc, origin, script)?;
    match assemble(alloc, &listing, origin, PartSet(0)) {
        Ok(done) => match far_number(origin, script) {
            Some(line) => Err(TextFault {
                line,
                kind: TextKind::BranchTooFar,
            }),
            None => Ok(done),
        },
        Err(AsmFault::NoMemory) => Err(TextFault {
            line: 0,
            kind: TextKind::NoMemory,
        }),
        Err(fault) => Err(told(origin, script, fault)),
    }
}
