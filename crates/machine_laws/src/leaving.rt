ghost use Rattle.machine_laws.specs.Leaving.{RowsLeaveForACause, LruLosesTheLongestUnused};

/// Over each event of every run a row of a core stays, or an invalidation of its inbox takes effect that covers the row, or a full
/// set has the row among its own when it gets a new one.
pub fn rows_leave_for_a_cause()
    ensures { RowsLeaveForACause }
{}

/// Under lru the row that a set would lose to a new one was made or served longest ago: since its last use each other row of the
/// set was used.
pub fn lru_loses_the_longest_unused()
    ensures { LruLosesTheLongestUnused }
{}
