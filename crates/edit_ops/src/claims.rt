//! Facts about the definitions of this crate, each the contract of a function that does nothing.

ghost use Rattle.edit_ops.specs.SameRows.{NamesItAfterAnInsert, NamesItAfterADelete, PointsAtNothingStill};
ghost use Rattle.edit_ops.specs.WorkedPointers.{RaisesFromTheRow, LowersAboveTheRow, InsertsAWaveRow, DeletesAWaveRow};
ghost use Rattle.edit_ops.specs.WorkedPointers.{InsertsAPulseRow, DeletesAFilterRow, InsertsASpeedRow, MovesIntoPulse};
ghost use Rattle.edit_ops.specs.WorkedPointers.{MovesIntoFilter, MovesIntoSpeed, MovesIntoWave, MovesToTheEnd};
ghost use Rattle.edit_ops.specs.WorkedPointers.{MovesRoundARow};
ghost use Rattle.edit_ops.specs.WorkedRefusals.{LacksPatterns, LacksOrders, LacksTableRows, LacksInstruments};
ghost use Rattle.edit_ops.specs.WorkedRefusals.{LimitsRows, LimitsOrders, LimitsTables, RangesOfRows, RangesOfValues};
ghost use Rattle.edit_ops.specs.WorkedRefusals.{RangesOfNotes, OrderOfRows, OrderOfLengths, OrderOfEntries};
ghost use Rattle.edit_ops.specs.WorkedRefusals.{OrderOfTables};
ghost use Rattle.edit_ops.specs.WorkedEdits.{SetsRows, InsertsRows, FillsPatterns, DeletesRows, SetsLengths};
ghost use Rattle.edit_ops.specs.WorkedEdits.{EditsOnePattern, TransposesToTheEnds, TransposesNotesAlone, EditsOrders};
ghost use Rattle.edit_ops.specs.WorkedEdits.{EmptiesOrders, FillsOrders, EditsOneChannel, AddsSubtunes};
ghost use Rattle.edit_ops.specs.WorkedEdits.{RemovesSubtunes, SetsFields, StoresInstruments, StoresTheLast};
ghost use Rattle.edit_ops.specs.WorkedEdits.{SetsTableRows, InsertsTableRows, FillsTables, SetsTexts, CountsPatterns};
ghost use Rattle.edit_ops.specs.WorkedEdits.{FillsSongs};

/// A pointer to a stored row names the same row after an insert, and after the delete of another row; one at nothing
/// stays one.
pub fn pointers_name_the_same()
    ensures insert { NamesItAfterAnInsert }
    ensures delete { NamesItAfterADelete }
    ensures nothing { PointsAtNothingStill }
{}

/// What the numbers of rows become where row 3 comes or goes.
pub fn worked_numbers()
    ensures raised { RaisesFromTheRow }
    ensures lowered { LowersAboveTheRow }
{}

/// Rows that come into each table and go, in a song with a pointer of each kind.
#[tactic(auto, unfolding(crate::proofs::Doing::doing_edits))]
pub fn worked_pointers()
    ensures wave_in { InsertsAWaveRow }
    ensures wave_out { DeletesAWaveRow }
    ensures pulse_in { InsertsAPulseRow }
    ensures filter_out { DeletesAFilterRow }
    ensures speed_in { InsertsASpeedRow }
{}

/// Of all commands and all rows that are commands those that point into a table; and the ends of what moves.
#[tactic(auto, unfolding(crate::proofs::Doing::doing_edits))]
pub fn worked_commands()
    ensures pulse { MovesIntoPulse }
    ensures filter { MovesIntoFilter }
    ensures speed { MovesIntoSpeed }
    ensures wave { MovesIntoWave }
    ensures end { MovesToTheEnd }
    ensures row { MovesRoundARow }
{}

/// What is no place, and on which side of each limit and each range an edit is refused.
#[tactic(auto, unfolding(crate::proofs::Doing::doing_edits))]
pub fn worked_refusals()
    ensures patterns { LacksPatterns }
    ensures orders { LacksOrders }
    ensures tables { LacksTableRows }
    ensures instruments { LacksInstruments }
    ensures row_limits { LimitsRows }
    ensures order_limits { LimitsOrders }
    ensures table_limits { LimitsTables }
    ensures rows { RangesOfRows }
    ensures values { RangesOfValues }
    ensures notes { RangesOfNotes }
{}

/// Where there is more than one reason, the place comes before the limit and the limit before the value.
#[tactic(auto, unfolding(crate::proofs::Doing::doing_edits))]
pub fn worked_order_of_refusals()
    ensures rows { OrderOfRows }
    ensures lengths { OrderOfLengths }
    ensures entries { OrderOfEntries }
    ensures tables { OrderOfTables }
{}

/// Edits of patterns that are done, up to each limit and each range.
#[tactic(auto, unfolding(crate::proofs::Doing::doing_edits))]
pub fn worked_patterns()
    ensures rows { SetsRows }
    ensures inserts { InsertsRows }
    ensures full { FillsPatterns }
    ensures deletes { DeletesRows }
    ensures lengths { SetsLengths }
    ensures one { EditsOnePattern }
    ensures ends { TransposesToTheEnds }
    ensures notes { TransposesNotesAlone }
    ensures counts { CountsPatterns }
    ensures most { FillsSongs }
{}

/// Edits of orderlists and subtunes that are done, up to each limit.
#[tactic(auto, unfolding(crate::proofs::Doing::doing_edits))]
pub fn worked_orders()
    ensures entries { EditsOrders }
    ensures empty { EmptiesOrders }
    ensures full { FillsOrders }
    ensures channels { EditsOneChannel }
    ensures added { AddsSubtunes }
    ensures removed { RemovesSubtunes }
{}

/// Edits of instruments, tables and texts that are done, each field of an instrument among them.
#[tactic(auto, unfolding(crate::proofs::Doing::doing_edits))]
pub fn worked_instruments_and_tables()
    ensures fields { SetsFields }
    ensures stored { StoresInstruments }
    ensures last { StoresTheLast }
    ensures rows { SetsTableRows }
    ensures inserts { InsertsTableRows }
    ensures full { FillsTables }
    ensures texts { SetsTexts }
{}
