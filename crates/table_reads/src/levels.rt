ghost use Rattle.std.specs.Prelude.{◌≡◌, ◌≤◌, pos, ◌≤ℤ◌};
ghost use Rattle.geometry.specs.Tables.{most_left, level_of};
ghost use Rattle.fault_codes.specs.Status.{HasStatus};
ghost use Rattle.table_reads.specs.Items.{fault_at};

use fault_codes::{Class, Fault, Stage};

/// Whose tables are walked and when: the stage, the mark s1ptw of its faults, and the moment of its items.
#[derive(Clone, Copy)]
pub struct Walker {
    pub moment: u32,
    pub stage: Stage,
    pub s1ptw: bool,
}

/// How many levels are left below level 0, of which a fault is that has no word.
pub const MOST_LEFT: u32 = 3;

/// The level with so many levels left, from 0 to 3.
pub fn level(left: u32) -> i8
    requires { left ≤ most_left }
    ensures { result ≡ level_of left }
{
    MOST_LEFT as i8 - left as i8
}

/// The levels left below a level from 0 to 3.
pub fn left_below(level: i8) -> u32
    requires least { pos 0 ≤ℤ level }
    requires most { level ≤ℤ pos 3 }
    ensures { result ≡ Rattle.geometry.specs.Tables.left_below level }
{
    (MOST_LEFT as i8 - level) as u32
}

/// A fault with so many levels left.
pub fn fault(walker: &Walker, class: Class, left: u32) -> Fault
    requires { left ≤ most_left }
    ensures value { result ≡ fault_at walker.now.stage walker.now.s1ptw class left }
    ensures status { HasStatus result }
{
    Fault {
        stage: walker.stage,
        level: level(left),
        class,
        s1ptw: walker.s1ptw,
    }
}
