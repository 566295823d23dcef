ghost use Rattle.std.specs.Prelude.{◌≡◌, ◌≤◌, ◌+◌, ◌^◌, length, take, IfOk};
ghost use Rattle.bitwords.specs.Causes.{HasCause};
ghost use Rattle.dump_file.specs.Held.{InTurns};
ghost use Rattle.dump_file.specs.Counted.{OthersStay};
ghost use Rattle.dump_file.specs.Filled.{IsFilled};

use crate::files::{Files, ReadFailed};

/// Reads from a place on until the slice is full or the file ends, and answers how many bytes came. It asks for what
/// is left only where a read gave less than was wanted.
pub fn fill_from<F: Files>(
    files: &mut F,
    name: &str,
    at: u64,
    into: &mut [u8],
) -> Result<usize, ReadFailed>
    requires { at + length into.old ≤ 2 ^ 64 }
    ensures same { F.holds files.new ≡ F.holds files.old }
    ensures bound { IfOk result (λ n. n ≤ length into.new) }
    ensures bytes { IfOk result (IsFilled (F.holds files.old name.now) (F.missing files.old name.now) (F.missing files.new name.now) at into.new) }
    ensures turns { IfOk result (λ n. InTurns (F.reads name.now) at files.old (take n into.new) files.new) }
    ensures missing { F.missing files.old name.now ≤ F.missing files.new name.now }
    ensures others { OthersStay name.now (F.faults files.old) (F.faults files.new) (F.missing files.old) (F.missing files.new) }
    ensures cause { HasCause (F.faults files.old name.now) (F.faults files.new name.now) result }
{
    let mut done = 0usize;
    while done < into.len() {
        let count = files.read_at(name, at + done as u64, &mut into[done..])?;
        if count == 0 {
            break;
        }
        done += count;
    }
    Ok(done)
}
