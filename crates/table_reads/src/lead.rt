use fault_codes::Fault;

/// Where a word leads: to a table, to a leaf, or to a fault.
#[derive(Clone, Copy)]
pub enum Lead<L, T> {
    Down { table: T },
    Reached { leaf: L },
    Stopped { fault: Fault },
}
