//! Worked rows: transcripts that obey the definitions, and transcripts that break a rule at a known
//! record, each as a computed check.
ghost use Rattle.moka_audit_tests.specs.Model.Lines.{GoodLines, BrokenLines};
ghost use Rattle.moka_audit_tests.specs.Model.Connections.{GoodConnections, BrokenConnections};
ghost use Rattle.moka_audit_tests.specs.Model.Values.{GoodValues, BrokenValues};
ghost use Rattle.moka_audit_tests.specs.Model.Commands.{GoodCommands, BrokenCommands};
ghost use Rattle.moka_audit_tests.specs.Model.Loads.{GoodLoads, BrokenLoads};
ghost use Rattle.moka_audit_tests.specs.Model.Sizes.{GoodSizes, BrokenSizes};
ghost use Rattle.moka_audit_tests.specs.Model.Belonging.{GoodBelonging, BrokenBelonging};
ghost use Rattle.moka_audit_tests.specs.Model.Bounds.{RowsOfBytes, RowsOfParts, RowsOfRefusals, RowsOfClosings, RowsOfGiveUps, RowsOfConfigs, RowsOfRecency};
ghost use Rattle.moka_audit_tests.specs.Model.Deadlines.{GoodDeadlines, BrokenDeadlines};

/// Which bytes make which line, and which fault is told.
pub fn rows_of_lines()
    ensures good { GoodLines }
    ensures broken { BrokenLines }
{}

/// Connections open, close and run their own lines; a command is held back where memory is wanting.
pub fn rows_of_connections()
    ensures good { GoodConnections }
    ensures broken { BrokenConnections }
{}

/// A value is shown while it lives, and told once with a true cause.
pub fn rows_of_values()
    ensures good { GoodValues }
    ensures broken { BrokenValues }
{}

/// What each command answers and does: asking without use, sums, coverage, keys in order, quitting.
pub fn rows_of_commands()
    ensures good { GoodCommands }
    ensures broken { BrokenCommands }
{}

/// A key has one load under way, which each connection that asked for the key waits for.
pub fn rows_of_loads()
    ensures good { GoodLoads }
    ensures broken { BrokenLoads }
{}

/// Who is told `Size` where there is a capacity.
pub fn rows_of_sizes()
    ensures good { GoodSizes }
    ensures broken { BrokenSizes }
{}

/// When a value dies.
pub fn rows_of_deadlines()
    ensures good { GoodDeadlines }
    ensures broken { BrokenDeadlines }
{}

/// Which records belong to a list of inputs, step by step.
pub fn rows_of_belonging()
    ensures good { GoodBelonging }
    ensures broken { BrokenBelonging }
{}

/// Single definitions at their bounds: bytes of keys and digits, parts and shares, refusals, why a
/// connection is closed, the 200th give-up, configurations, and the order of use.
pub fn rows_of_bounds()
    ensures bytes { RowsOfBytes }
    ensures parts { RowsOfParts }
    ensures refusals { RowsOfRefusals }
    ensures closings { RowsOfClosings }
    ensures give_ups { RowsOfGiveUps }
    ensures configs { RowsOfConfigs }
    ensures recencies { RowsOfRecency }
{}
