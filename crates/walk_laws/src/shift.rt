ghost use Rattle.walk_laws.specs.Shift.{Stage2Shifts, Table2Shifts, WalkShifts, Table1Shifts};

/// The items on which stage 2 reaches a leaf serve each IPA of the leaf's region.
pub fn stage2_shifts()
    ensures { Stage2Shifts }
{}

/// The items up to a table of stage 2 serve each IPA of the table's region.
pub fn table2_shifts()
    ensures { Table2Shifts }
{}

/// The items on which a walk lands serve each access of the piece that stage 1 doesn't refuse.
pub fn walk_shifts()
    ensures { WalkShifts }
{}

/// The items up to a table of stage 1 serve each access of the table's region that stage 1 doesn't refuse.
pub fn table1_shifts()
    ensures { Table1Shifts }
{}
