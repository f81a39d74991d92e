//! Facts about the definitions of this crate, each the contract of a function that does nothing.

ghost use Rattle.asm6502.specs.Instructions.{WhatIsEncodedDecodes, NothingElseDecodes};
ghost use Rattle.asm6502.specs.Faults.{FirstIsFirst, NoneIsFound, AllPassed};
ghost use Rattle.asm6502.specs.Branches.{BranchesReach, FarIsOutOfReach, BranchesKeepDistance, BranchesReachAfter};
ghost use Rattle.asm6502.specs.Branches.{BranchesReachBefore};
ghost use Rattle.asm6502.specs.Parts.{PartsAddUp, PartSizesAdd, PartsStandTogether};
ghost use Rattle.asm6502.specs.Standing.{AssembledLinesStand, HeldBytesStand, SizesAdd, KeptAppend, FrontsStand};
ghost use Rattle.asm6502.specs.Standing.{BacksStand, BothStand, LinesStay};
ghost use Rattle.asm6502.specs.Stretches.{StretchesStand, PlacesAdd, NamesAppend, NamesSplit, LabelsStandWhereNamed};
ghost use Rattle.asm6502.specs.Stretches.{HomesAppend, HomesGrow, StretchesPass, PassedListingsAssemble};
ghost use Rattle.asm6502.specs.WorkedListings.{ConstantsAre, TonePlays, ToneWithPart, LabelsHaveAddresses};
ghost use Rattle.asm6502.specs.WorkedListings.{FarBranchIsRefused, OrderOfRefusals};

/// `encode` and `decode` are each other's inverse.
pub fn decode_is_inverse_of_encode()
    ensures decodes { WhatIsEncodedDecodes }
    ensures nothing_else { NothingElseDecodes }
{}

/// The displacement byte of a branch leads to its target, and where there is none, no displacement leads there. It
/// depends on distances alone: as far apart at another place, it is the same.
pub fn branch_bytes_lead_to_targets()
    ensures reach { BranchesReach }
    ensures far { FarIsOutOfReach }
    ensures distance { BranchesKeepDistance }
    ensures after { BranchesReachAfter }
    ensures before { BranchesReachBefore }
{}

/// The bytes of a listing with which nothing is wrong stand for its kept lines: in any memory that holds them at the
/// origin, each line is read there by the machine's own decode table. And in any memory that holds those of a stretch
/// of the lines alone, at their place, the kept lines of that stretch stand there, whatever the rest of memory holds.
pub fn assembled_lines_stand()
    ensures all { AssembledLinesStand }
    ensures stretch { StretchesStand }
{}

/// What stands at a place can be taken apart and put together, and stays while its bytes stay.
pub fn lines_that_stand()
    ensures held { HeldBytesStand }
    ensures sizes { SizesAdd }
    ensures kept { KeptAppend }
    ensures front { FrontsStand }
    ensures back { BacksStand }
    ensures both { BothStand }
    ensures stay { LinesStay }
{}

/// Where labels are in lines one after the other: in lines that name no label twice, a label has the address at which
/// the line stands that names it.
pub fn labels_have_places()
    ensures places { PlacesAdd }
    ensures addresses { LabelsStandWhereNamed }
{}

/// Two lists of lines, one after the other, name no label twice exactly where neither of them does and they name
/// different labels.
pub fn labels_are_named_once()
    ensures append { NamesAppend }
    ensures split { NamesSplit }
{}

/// A stretch of lines that names its own labels in reach, and uses no label but these and those that the listing always
/// names, passes every test in any listing that names no label twice and fits at its origin, whichever parts are kept
/// and wherever it stands; such stretches can be put together and stand among more lines; and a listing of lines that
/// pass has no fault.
pub fn stretches_pass_in_any_listing()
    ensures append { HomesAppend }
    ensures grow { HomesGrow }
    ensures pass { StretchesPass }
    ensures assemble { PassedListingsAssemble }
{}

/// The kept lines take the bytes of part 255 and of each part whose bit is in the set; the lines of one part are all
/// there or none is.
pub fn parts_add_up()
    ensures sum { PartsAddUp }
    ensures append { PartSizesAdd }
    ensures together { PartsStandTogether }
{}

/// The lines that a listing may have, and the bytes in its items of bytes.
pub fn worked_constants()
    ensures { ConstantsAre }
{}

/// Listings that are worked by hand.
pub fn worked_listings()
    ensures tone { TonePlays }
    ensures with_part { ToneWithPart }
    ensures labels { LabelsHaveAddresses }
    ensures far { FarBranchIsRefused }
    ensures order { OrderOfRefusals }
{}

/// The first fault of a listing is found at a line before which nothing is found; and there is none exactly where
/// nothing is found at any line.
pub fn first_faults_are_first()
    ensures first { FirstIsFirst }
    ensures none { NoneIsFound }
    ensures passed { AllPassed }
{}
