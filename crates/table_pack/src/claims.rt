//! Facts about new numbers of tables, each the contract of a function that does nothing.

ghost use Rattle.table_pack.specs.TableLaws.{RenumberingsKeepPrograms, RenumberingsKeepOrder, StoredOnceKeepsPrograms};
ghost use Rattle.table_pack.specs.TableLaws.{RenumberedRowsAreKept, StoredOnceIsPacked, PackedTablesKeepPrograms};
ghost use Rattle.table_pack.specs.TableLaws.{PackedProgramsAreRead};
ghost use Rattle.table_pack.specs.WorkedTables.{LastFourAreKept, ZeroSpeedsAreOne};

/// New numbers keep programs, also where the rows of equal programs stand for each other.
pub fn new_numbers_keep_programs()
    ensures numbers { RenumberingsKeepPrograms }
    ensures order { RenumberingsKeepOrder }
    ensures once { StoredOnceKeepsPrograms }
{}

/// The rows that stay, under new numbers, are those of the packed table, which keeps programs.
pub fn packed_tables_are_stored_once()
    ensures rows { RenumberedRowsAreKept }
    ensures packed { StoredOnceIsPacked }
    ensures keep { PackedTablesKeepPrograms }
    ensures read { PackedProgramsAreRead }
{}

/// New numbers of two small tables.
pub fn worked_tables()
    ensures rows { LastFourAreKept }
    ensures speeds { ZeroSpeedsAreOne }
{}
