ghost use Rattle.served_walk.specs.CanServe.{RowsCanServe};

/// Over every run the rows of each core can serve. No two of them were made as the same one, and each was made in an earlier
/// step. The walk of an access that a row of stage 1 may serve ends on the row's trail or needs more behind its table; and the
/// trail of a row of stage 2 is used up by a leaf, or needs a word of a table.
pub fn rows_can_serve()
    ensures { RowsCanServe }
{}
