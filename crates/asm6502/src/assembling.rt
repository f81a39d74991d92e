//! From a listing to its bytes.

ghost use Rattle.std.specs.Prelude.{◌≡◌, ◌≤◌, ◌+◌, ◌⊎◌, length, nat_lt, if◌then◌else◌};
ghost use Rattle.std.specs.Prelude.{MatchResult, IfOk, None, Some};
ghost use Rattle.asm6502.specs.Lines.{kept, size_of, data_size};
ghost use Rattle.asm6502.specs.Faults.{fault_of};
ghost use Rattle.asm6502.specs.Moving.{IsAssembly, MovesAsAssembled};
ghost use Rattle.asm6502.specs.Standing.{KeptLinesStand};
ghost use Rattle.asm6502.specs.declared.faults.AsmFault.TheVariants.{PastEnd, NoMemory};

use crate::assembled::Assembled;
use crate::faults::AsmFault;
use crate::labels::{check_lines, check_operands, labels_of};
use crate::lines::{Listing, MOST_BYTES, MOST_LINES, PartSet};
use crate::output::output_of;
use cpu6502::MEMORY_SIZE;
use std::alloc::Global;

/// Assembles the lines of a listing that a set of parts keeps, to stand at an origin: each kept line stands after the
/// kept lines before it, and operands with labels have their addresses. The listing is within its limits.
///
/// # Errors
///
/// The refusals are those of `AsmFault`, in their order, each at its first place in the listing.
pub fn assemble(
    alloc: Global,
    listing: &Listing,
    origin: u16,
    set: PartSet,
) -> Result<Assembled, AsmFault>
    requires lines { length listing.now ≤ MOST_LINES }
    requires bytes { data_size listing.now ≤ MOST_BYTES }

    // Want of memory aside, it is refused exactly where something is wrong with the listing, with that fault.
    ensures faults { MatchResult result
        (λ _. fault_of set.0 origin listing.now ≡ None)
        (λ fault. (fault ≡ NoMemory) ⊎ (fault_of set.0 origin listing.now ≡ Some fault)) }

    ensures assembled { IfOk result (λ done. IsAssembly done set.0 origin listing.now) }
    ensures size { IfOk result (λ done. length done.bytes ≡ size_of (kept set.0 listing.now)) }
    ensures stands { IfOk result (λ done. KeptLinesStand set.0 origin listing.now done.bytes) }
    ensures moves { IfOk result (MovesAsAssembled set.0 listing.now) }
{
    let lines = listing.as_slice();
    check_lines(lines, set)?;
    let labels = labels_of(alloc, lines, set)?;
    check_operands(lines, set, &labels)?;
    check_end(origin, labels.size())?;
    let output = output_of(alloc, lines, set, origin, &labels)?;
    Ok(Assembled {
        origin,
        bytes: output.bytes,
        fixes: output.fixes,
    })
}

/// Refuses bytes that pass the end of memory.
///
/// # Errors
///
/// The origin plus this many bytes passes the size of memory.
fn check_end(origin: u16, length: u32) -> Result<(), AsmFault>
    ensures { MatchResult result
        (λ _. origin + length ≤ MEMORY_SIZE)
        (λ fault. (if nat_lt MEMORY_SIZE (origin + length) then Some (PastEnd length) else None)
        ≡ Some fault) }
{
    if u64::from(origin) + u64::from(length) > MEMORY_SIZE as u64 {
        return Err(AsmFault::PastEnd { length });
    }
    Ok(())
}
