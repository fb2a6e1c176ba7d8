//! Small runs at which the premises of the laws hold, as computed checks.

ghost use Rattle.engine_tests.specs.Laws.Runs.{RowsOfPoints, RowsOfOrder, RowsOfFronts, RowsOfSweeping};

/// Three values in a cache for two, in order, and the uncut run that evicts the first: the third
/// write has a kept weight above the capacity.
pub fn rows_of_points()
    ensures { RowsOfPoints }
{}

/// Why tickets have to be sent in the order in which they were made: else a value is refused though
/// all that was held was never above the capacity.
pub fn rows_of_order()
    ensures { RowsOfOrder }
{}

/// Once the three writes were applied nothing is due, and the shortest front is the first record.
pub fn rows_of_fronts()
    ensures { RowsOfFronts }
{}

/// Two values, the first of them past its live time: a timely cache, and the uncut run that takes
/// it and leaves the other.
pub fn rows_of_sweeping()
    ensures { RowsOfSweeping }
{}
