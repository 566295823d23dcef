ghost use Rattle.std.specs.Prelude.{◌≡◌, ◌≤◌};
ghost use Rattle.geometry.specs.Tables.{IsGranule, most_left};
ghost use Rattle.geometry.specs.Runs.{run_at};

use crate::case_table;

/// The class of a run of entries with the Contiguous bit, or None where the level has no run.
pub fn run_class<const G: u32, const LEFT: u32>() -> Option<u32>
    requires granule { IsGranule G }
    requires left { LEFT ≤ most_left }
    ensures { result ≡ run_at G LEFT }
{
    case_table!((G, LEFT);
        (12, 2) => Some(34),
        (12, 1) => Some(25),
        (12, 0) => Some(16),
        (14, 1) => Some(30),
        (14, 0) => Some(21),
        (16, 1) => Some(34),
        (16, 0) => Some(21);
        else None)
}
