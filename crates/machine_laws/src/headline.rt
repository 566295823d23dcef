ghost use Rattle.machine_laws.specs.Headline.{RunsAreAllowed, UnchangedIsFresh, RunsWithoutRowsAreFresh};

/// Every step of every run is allowed: for all events of the machine's cores, all sizes and policies and all memory. Each
/// access that is translated or faults has a kept trail on which the walk ends so; a place that memory lacks is the one that the
/// walk needs behind a kept trail; and a conflict is of two kept trails that differ.
pub fn runs_are_allowed()
    ensures { RunsAreAllowed }
{}

/// An allowed answer that is no conflict, and whose first trail the memory and the registers of now would give again, is that of
/// the fresh walk: it has its outcome, and its items but for their moments.
pub fn unchanged_trails_are_fresh()
    ensures { UnchangedIsFresh }
{}

/// On a machine that keeps no rows each access is the fresh walk of its moment: outcome and items are those of the memory and
/// the registers behind the steps before it, nothing is old or stale, and no row is evicted.
pub fn runs_without_rows_are_fresh()
    ensures { RunsWithoutRowsAreFresh }
{}
