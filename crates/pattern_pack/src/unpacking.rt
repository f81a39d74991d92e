//! Unpacking a pattern.

ghost use Rattle.std.specs.Prelude.{◌≡◌, ◌≤◌, ◌⊎◌, List, length, IfOk, IfErr};
ghost use Rattle.song_model.specs.declared.rows.Row.{Row as OneRow};
ghost use Rattle.packed_form.specs.declared.faults.PackedFault.{PackedFault};
ghost use Rattle.packed_form.specs.PackedSpells.{PackedSpells};
ghost use Rattle.packed_form.specs.Faults.{packed_fault_of, unpacked};
ghost use Rattle.pattern_pack.specs.Answers.{Gives, IsAnswer};

use crate::rows::Rows;
use packed_form::{PackedFault, Place};
use song_model::Pattern;
use std::alloc::Global;

/// The most bytes that are unpacked.
pub const MOST_BYTES: usize = 65_536;

/// The pattern that the bytes spell, also where the packer would have spelled it otherwise.
///
/// # Errors
///
/// Where they spell none, the first byte that no entry admits, that they run out before the end, or that there is no
/// row or there are more than 128; or out of memory.
pub fn unpack_pattern(alloc: Global, bytes: &[u8]) -> Result<Pattern, PackedFault>
    requires { length bytes.now ≤ MOST_BYTES }
    // Rows that are answered are spelled by the bytes.
    ensures found { IfOk result (PackedSpells bytes.now) }
    // Rows that the bytes spell are answered.
    ensures only { (rows : List OneRow) → PackedSpells bytes.now rows → IsAnswer result (Ok rows) }
    // A fault that is answered is the first one.
    ensures fault { IfErr result (λ fault. (fault ≡ PackedFault.NoMemory) ⊎ (packed_fault_of bytes.now ≡
        Some fault)) }
    // Where there is a fault it is answered.
    ensures exact { (fault : PackedFault) → packed_fault_of bytes.now ≡ Some fault →
        IsAnswer result (Err fault) }
{
    read(alloc, bytes)
}

/// The pattern, entry by entry.
///
/// # Errors
///
/// The first fault; or out of memory.
fn read(alloc: Global, bytes: &[u8]) -> Result<Pattern, PackedFault>
    requires { length bytes.now ≤ MOST_BYTES }
    ensures { Gives result (unpacked bytes.now) }
{
    let mut rows = Rows::new(alloc);
    let mut place = Place::AtEntry { instrument: 0 };
    for (offset, byte) in bytes.iter().enumerate() {
        let offset = offset as u32;
        let Some(taken) = place.take(*byte) else {
            return Err(PackedFault::BadByte { offset });
        };
        let Some(next) = rows.go_on(taken)? else {
            if offset + 1 < bytes.len() as u32 {
                return Err(PackedFault::BadByte { offset: offset + 1 });
            }
            return rows.into_pattern();
        };
        place = next;
    }
    Err(PackedFault::NoEnd)
}
