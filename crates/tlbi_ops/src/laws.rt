//! Laws of the definitions: functions that do nothing, whose contracts are the laws.
ghost use Rattle.tlbi_ops.specs.Laws.{StaysBelow, EndsBelow, Widens};

/// Where the addresses of an operand end.
pub fn operands_end()
    ensures below { StaysBelow }
    ensures fits { EndsBelow }
{}

/// Which operations take more than others.
pub fn operations_widen()
    ensures { Widens }
{}
