ghost use Rattle.std.specs.Prelude.{◌≡◌, ℕ, List};
ghost use Rattle.dump_file.specs.Held.{Bytes};
ghost use Rattle.dump_file.specs.Kept.{StandsFor};

use dump_file::{Dump, Files};
use table_reads::Supply;

/// A dump and its files as a supply of words, with a count of the reads that failed. Where the files tell the bytes of its
/// file, the dump stands for them.
#[derive(Drop)]
pub struct DumpWords<'a, F: Files> {
    pub dump: &'a mut Dump,
    pub files: &'a mut F,
    pub failures: u64,
    pub ghost stands: { (bytes : List ℕ) → F.holds files.now dump.now.name ≡ Bytes bytes → StandsFor bytes dump.now },
}

impl<'a, F: Files> Supply for DumpWords<'a, F> {
    ghost use Rattle.answers.specs.Supplies.{dump_memory, KeepsLoan};
    ghost use Rattle.answers.specs.Keeping.{keeps_here as here, keeps_then as then};

    ghost memory = { λ s. dump_memory (F.holds s.files.now s.dump.now.name) s.dump.now.segments };

    ghost faults = { λ s. s.failures };

    ghost keeps = { λ s t. KeepsLoan F.holds F.faults F.missing s.files.ghost_name t.files.ghost_name
        s.dump.now.name t.dump.now.name s.files.now t.files.now s.failures t.failures };

    ghost keeps_here = { λ s. here F.holds F.faults F.missing s.files.ghost_name s.dump.now.name s.files.now s.failures };

    ghost keeps_then = { λ s t u. then F.holds F.faults F.missing s.files.ghost_name t.files.ghost_name u.files.ghost_name
        s.dump.now.name t.dump.now.name u.dump.now.name s.files.now t.files.now u.files.now s.failures t.failures u.failures };

    fn word(&mut self, pa: u64) -> Option<u64> {
        match self.dump.word(self.files, pa) {
            Ok(word) => word,
            Err(_) => {
                self.failures = self.failures.saturating_add(1);
                None
            }
        }
    }
}
