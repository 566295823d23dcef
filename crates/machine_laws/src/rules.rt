ghost use Rattle.machine_laws.specs.Rules.{QuietEventsKeepRows, NoRowsMadeChangesNone, NothingCoveredChangesNothing, BarrierEmptiesInboxes};
ghost use Rattle.machine_laws.specs.Rules.{NoRowOutlivesItsVmid, RowsServeTheirOwn, FullSetsLoseOne};

/// Stores, register writes and ISB leave the inbox and the rows of every core.
pub fn quiet_events_keep_rows()
    ensures { QuietEventsKeepRows }
{}

/// A step that makes no row changes none, where it serves by none or the policy isn't lru, under which rows that served move.
pub fn no_rows_made_changes_none()
    ensures { NoRowsMadeChangesNone }
{}

/// An invalidation that covers no row changes nothing.
pub fn nothing_covered_changes_nothing()
    ensures { NothingCoveredChangesNothing }
{}

/// Behind DSB ISH no inbox has an invalidation of its core.
pub fn barrier_empties_inboxes()
    ensures { BarrierEmptiesInboxes }
{}

/// Behind a broadcast VMALLS12E1 and a later DSB ISH of its issuer no core has a row of its VMID that was made before it.
pub fn no_row_outlives_its_vmid()
    ensures { NoRowOutlivesItsVmid }
{}

/// A row serves only under the register fields and the VMID under which it was made.
pub fn rows_serve_their_own()
    ensures { RowsServeTheirOwn }
{}

/// A full set loses the row that the policy names and gets the new one, a set that isn't full loses none, and no other set
/// changes.
pub fn full_sets_lose_one()
    ensures { FullSetsLoseOne }
{}
