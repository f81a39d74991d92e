//! Facts about the code, each the contract of a function that does nothing.

ghost use Rattle.player_code.specs.CodeLaws.{CodeAssembles, EntrancesAreInOneListing, LabelsStandInPlace};
ghost use Rattle.player_code.specs.CodeLaws.{CodeTakesItsBlocks, CodeIsWellEntered, AssembledCodeStands};
ghost use Rattle.player_code.specs.WorkedCode.{VariablesAreNamed, PlansAreMet, PlansAreRefused};
ghost use Rattle.player_code.specs.WorkedCode.{CodeIsMeasured, ListsAreRefused};

/// With any lists behind it the code assembles, at each origin at which all of it fits.
pub fn code_assembles()
    ensures { CodeAssembles }
{}

/// Both entrances stand in the one listing. The variables stand behind the two jumps, each at its place, then the code
/// that plays a frame, then the code that begins a subtune, and the lists behind that.
pub fn labels_stand_in_place()
    ensures listing { EntrancesAreInOneListing }
    ensures place { LabelsStandInPlace }
{}

/// The code takes the bytes of its variables and of its blocks, and 22 around them, whatever these bytes are and
/// wherever they and the pointer are.
pub fn code_takes_its_blocks()
    ensures { CodeTakesItsBlocks }
{}

/// From `$0800` up to `$D000` both entrances are well entered, where the blocks write nowhere in the entrances'
/// lines and nowhere on the stack.
pub fn code_is_well_entered()
    ensures { CodeIsWellEntered }
{}

/// In any memory with the bytes of the listing the code of both entrances stands.
pub fn assembled_code_stands()
    ensures { AssembledCodeStands }
{}

/// Two bytes with the names in front of them; plans at `$1000`, worked by hand, and such as are none; how many bytes
/// their code takes, without conditions, with all, and where it takes most, and that none takes more; and lists that are
/// none.
pub fn worked_codes()
    ensures names { VariablesAreNamed }
    ensures plans { PlansAreMet }
    ensures refused { PlansAreRefused }
    ensures bytes { CodeIsMeasured }
    ensures lists { ListsAreRefused }
{}
