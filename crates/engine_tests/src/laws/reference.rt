//! Worked rows of the reference cache, as computed checks: a small cache is played through the
//! definitions, and what it tells, holds and shows is compared.

ghost use Rattle.engine_tests.specs.Laws.Bounds.{RowsOfMoments, RowsOfChanges, RowsOfCover, RowsOfRoom, RowsOfTables, RowsOfApplied, RowsOfDue};
ghost use Rattle.engine_tests.specs.Laws.Rows.{RowsOfTimes, RowsOfCoverage, RowsOfLeastRecentlyUsed, RowsOfFrequencies, RowsOfSending};

/// Live and idle times and own expirations end at the very moment; what a write tells of a dead
/// value.
pub fn rows_of_times()
    ensures { RowsOfTimes }
{}

/// Clears and predicates go by steps, also at one moment.
pub fn rows_of_coverage()
    ensures { RowsOfCoverage }
{}

/// The settled record used longest ago goes; one with an unapplied write stays.
pub fn rows_of_least_recently_used()
    ensures { RowsOfLeastRecentlyUsed }
{}

/// A newcomer displaces the shortest settled front that is as heavy where it was asked for more
/// often, and is refused else.
pub fn rows_of_frequencies()
    ensures { RowsOfFrequencies }
{}

/// The queue takes 128 writes, each ticket once.
pub fn rows_of_sending()
    ensures { RowsOfSending }
{}

/// Single definitions at their bounds: moments and own expirations, coverage and what is reported,
/// room, the sketch's table, what runs apply, and when one is due.
pub fn rows_of_bounds()
    ensures moments { RowsOfMoments }
    ensures changes { RowsOfChanges }
    ensures cover { RowsOfCover }
    ensures room { RowsOfRoom }
    ensures tables { RowsOfTables }
    ensures applied { RowsOfApplied }
    ensures due { RowsOfDue }
{}
