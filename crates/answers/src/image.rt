ghost use Rattle.std.specs.Prelude.{◌≡◌, ◌≤◌, ◌%◌, IfOk};
ghost use Rattle.bitwords.specs.Causes.{HasCause};
ghost use Rattle.answers.specs.Image.{IsImageWord, IsMissed};

use byteorder::{ByteOrder, LittleEndian};
use dump_file::{Files, ReadFailed, fill_from};
use table_reads::Supply;

/// The word at a place of a file, or None where not all its eight bytes are there.
fn word_at<F: Files>(files: &mut F, name: &str, pa: u64) -> Result<Option<u64>, ReadFailed>
    requires { pa % 8 ≡ 0 }
    ensures same { F.holds files.new ≡ F.holds files.old }
    ensures word { IfOk result (IsImageWord (F.holds files.old name.now) pa) }
    ensures missed { IfOk result (IsMissed (F.holds files.old name.now) (F.missing files.old name.now) (F.missing files.new name.now)) }
    ensures missing { F.missing files.old name.now ≤ F.missing files.new name.now }
    ensures cause { HasCause (F.faults files.old name.now) (F.faults files.new name.now) result }
{
    let mut bytes = [0u8; 8];
    let count = fill_from(files, name, pa, &mut bytes)?;
    if count < 8 {
        return Ok(None);
    }
    Ok(Some(LittleEndian::read_u64(&bytes)))
}

/// A file whose bytes are memory from address 0, with a count of the reads that failed.
#[derive(Drop)]
pub struct Image<'a, F> {
    pub name: &'a str,
    pub files: &'a mut F,
    pub failures: u64,
}

impl<'a, F: Files> Supply for Image<'a, F> {
    ghost use Rattle.answers.specs.Supplies.{image_memory, KeepsLoan};
    ghost use Rattle.answers.specs.Keeping.{keeps_here as here, keeps_then as then};

    ghost memory = { λ s. image_memory (F.holds s.files.now s.name.now) };

    ghost faults = { λ s. s.failures };

    ghost keeps = { λ s t. KeepsLoan F.holds F.faults F.missing s.files.ghost_name t.files.ghost_name
        s.name.now t.name.now s.files.now t.files.now s.failures t.failures };

    ghost keeps_here = { λ s. here F.holds F.faults F.missing s.files.ghost_name s.name.now s.files.now s.failures };

    ghost keeps_then = { λ s t u. then F.holds F.faults F.missing s.files.ghost_name t.files.ghost_name u.files.ghost_name
        s.name.now t.name.now u.name.now s.files.now t.files.now u.files.now s.failures t.failures u.failures };

    fn word(&mut self, pa: u64) -> Option<u64> {
        match word_at(self.files, self.name, pa) {
            Ok(word) => word,
            Err(_) => {
                self.failures = self.failures.saturating_add(1);
                None
            }
        }
    }
}
