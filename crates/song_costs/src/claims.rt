//! Facts about the definitions, each the contract of a function that does nothing.

ghost use Rattle.song_costs.specs.CostLaws.{CostsAddUp, PartsAddUp, KeptPartsAddUp, KeptPartsAreOne};
ghost use Rattle.song_costs.specs.Names.{NamesAreShort};
ghost use Rattle.song_costs.specs.WorkedCosts.{NoteIsWorked, InstrumentsAreCounted, TablesAreCounted, PartsAreWorked};
ghost use Rattle.song_costs.specs.WorkedCosts.{FactPartsAreWorked, OrdersAreCounted, SubtunePartIsWorked};
ghost use Rattle.song_costs.specs.WorkedCosts.{ListIsWorked, OptionsAreWorked};

/// The kinds of data add up to the packed size, the slides and the frequencies, and with the player to the length of an
/// image; and the parts that are kept to the player, as do those that are told.
pub fn costs_add_up()
    ensures costs { CostsAddUp }
    ensures parts { PartsAddUp }
    ensures told { KeptPartsAddUp }
{}

/// A song and options have one list of parts that are told.
pub fn kept_parts_are_one()
    ensures { KeptPartsAreOne }
{}

/// The names of parts are short, and no two are alike.
pub fn part_names_are_short()
    ensures { NamesAreShort }
{}

/// The bytes of a song of one note, kind by kind, those of the orderlists of two subtunes and of two instruments, and
/// those of a song whose four tables have different numbers of rows; and parts that are told, with others beside them
/// that aren't.
#[tactic(auto, using(crate::proofs::WorkedCosts::note_is_worked, crate::proofs::WorkedSubtunes::orders_are_counted, crate::proofs::WorkedCosts::instruments_are_counted, crate::proofs::WorkedCosts::tables_are_counted, crate::proofs::WorkedCosts::parts_are_worked, crate::proofs::WorkedCosts::fact_parts_are_worked, crate::proofs::WorkedSubtunes::subtune_part_is_worked, crate::proofs::WorkedCosts::list_is_worked, crate::proofs::WorkedCosts::options_are_worked))]
pub fn worked_costs()
    ensures note { NoteIsWorked }
    ensures orders { OrdersAreCounted }
    ensures instruments { InstrumentsAreCounted }
    ensures tables { TablesAreCounted }
    ensures parts { PartsAreWorked }
    ensures facts { FactPartsAreWorked }
    ensures subtunes { SubtunePartIsWorked }
    ensures list { ListIsWorked }
    ensures options { OptionsAreWorked }
{}
