//! How large the regions of rows are.
ghost use Rattle.made_rows.specs.Small.{RowsAreSmall};

/// Over every run the rows of each core have classes below 64: the region of a row, of 2 ^ class bytes, has fewer than 2 ^ 64.
pub fn rows_are_small()
    ensures { RowsAreSmall }
{}
