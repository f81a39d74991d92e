//! Facts about the format, each the contract of a function that does nothing.

ghost use Rattle.gts5.specs.FormatLaws.{ConstantIs, OneSongOrOneFault, CanonicalIsSpelled, CanonicalHasNoFault, CanonicalIsShort};
ghost use Rattle.gts5.specs.WorkedFaults.{MagicIsWanted, CutsAreTruncated, CountsAreLimited, OrdersHaveEndmarks};
ghost use Rattle.gts5.specs.WorkedFaults.{RowsAreInRange, PatternsEnd, LooseTextsHaveNoFault};

/// Each list of bytes spells exactly one song, or has exactly one fault and spells none.
pub fn one_song_or_one_fault()
    ensures { OneSongOrOneFault }
{}

/// The canonical spelling of a song spells it and no other, has no fault, and fits into a file that can
/// be read: so what was written is read as the song that it was written from.
pub fn what_is_written_is_read()
    ensures spelled { CanonicalIsSpelled }
    ensures faultless { CanonicalHasNoFault }
    ensures short { CanonicalIsShort }
{}

/// The bytes that a file may have.
pub fn worked_constants()
    ensures { ConstantIs }
{}

/// The faults of the silent song, cut or with some bytes changed.
#[tactic(auto, unfolding(crate::specs::Faults::fault_of, crate::specs::Faults::after_song, crate::specs::Faults::after_magic, crate::specs::Faults::after_bytes, crate::specs::Faults::after_counted, crate::specs::Faults::after_order, crate::specs::Faults::after_table, crate::specs::Faults::after_pattern))]
pub fn worked_faults()
    ensures magic { MagicIsWanted }
    ensures cuts { CutsAreTruncated }
    ensures counts { CountsAreLimited }
    ensures orders { OrdersHaveEndmarks }
    ensures rows { RowsAreInRange }
    ensures ends { PatternsEnd }
    ensures loose { LooseTextsHaveNoFault }
{}
