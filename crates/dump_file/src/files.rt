ghost use Rattle.std.specs.Prelude.{◌≡◌, ◌≢◌, ℕ, ◌≤◌, ◌<◌, List, length, take, IfOk, MatchOption, MatchResult, Contains};
ghost use Rattle.bitwords.specs.Causes.{HasCause};
ghost use Rattle.dump_file.specs.Held.{Holding, IsSize, IsRead};
ghost use Rattle.dump_file.specs.Counted.{OthersStay};
ghost use Rattle.dump_file.specs.Counts.{counts_of};
ghost use Rattle.dump_file.specs.FilesInMemory.{held_of};

use crate::counts::Counts;

/// A file's size or its bytes could not be read.
#[derive(Clone, Copy, Debug, PartialEq, Eq)]
pub struct ReadFailed;

/// Files that are read by name.
pub trait Files {
    /// What a name holds, where that is told. No call changes it.
    ghost holds: { Self → List ℕ → Holding };

    /// How often a call has failed, by the name that was asked for.
    ghost faults: { Self → List ℕ → ℕ };

    /// How often a name was found missing or its file found ended.
    ghost missing: { Self → List ℕ → ℕ };

    /// One read: the name, the files before it, the place, the bytes that came and the files after it.
    ghost reads: { List ℕ → Self → ℕ → List ℕ → Self → Type 0 };

    /// The file's size in bytes, or None where there is no such file. No byte of it is read.
    fn size(&mut self, name: &str) -> Result<Option<u64>, ReadFailed>
        ensures same { holds self.new ≡ holds self.old }
        ensures size { IfOk result (IsSize (holds self.old name.now) (missing self.old name.now) (missing self.new name.now)) }
        ensures missing { missing self.old name.now ≤ missing self.new name.now }
        ensures others { OthersStay name.now (faults self.old) (faults self.new) (missing self.old) (missing self.new) }
        ensures cause { HasCause (faults self.old name.now) (faults self.new name.now) result };

    /// Reads from a place on, counted in bytes. 0 is the file's end.
    fn read_at(&mut self, name: &str, at: u64, into: &mut [u8]) -> Result<usize, ReadFailed>
        requires { 0 < length into.old }
        ensures same { holds self.new ≡ holds self.old }
        ensures bound { IfOk result (λ n. n ≤ length into.new) }
        ensures bytes { IfOk result (IsRead (holds self.old name.now) (missing self.old name.now) (missing self.new name.now) at into.new) }
        ensures read { IfOk result (λ n. reads name.now self.old at (take n into.new) self.new) }
        ensures missing { missing self.old name.now ≤ missing self.new name.now }
        ensures others { OthersStay name.now (faults self.old) (faults self.new) (missing self.old) (missing self.new) }
        ensures cause { HasCause (faults self.old name.now) (faults self.new name.now) result };
}

/// A file in memory.
#[derive(Drop)]
pub struct MemoryFile {
    pub name: String,
    pub bytes: Vec<u8>,
}

/// The first file of that name.
fn find<'a>(files: &'a [MemoryFile], name: &str) -> Option<&'a MemoryFile>
    ensures { MatchOption result (held_of files.now name.now ≡ Holding.Absent) (λ f. held_of files.now name.now ≡ Holding.Bytes f.now.bytes.items) }
{
    for file in files {
        if file.name.as_str() == name {
            return Some(file);
        }
    }
    None
}

fn size_of(files: &[MemoryFile], name: &str) -> Option<u64>
    ensures { IsSize (held_of files.now name.now) 0 0 result }
{
    match find(files, name) {
        Some(file) => Some(file.bytes.len() as u64),
        None => None,
    }
}

/// Copies what stands from a place on, as much as fits.
pub fn copy_from(bytes: &[u8], at: u64, into: &mut [u8]) -> usize
    ensures bound { result ≤ length into.new }
    ensures bytes { IsRead (Holding.Bytes bytes.now) 0 0 at into.new result }
{
    let Ok(start) = usize::try_from(at) else {
        return 0;
    };
    if start >= bytes.len() {
        return 0;
    }
    let rest = &bytes[start..];
    let count = rest.len().min(into.len());
    into[..count].copy_from_slice(&rest[..count]);
    count
}

fn read_from(files: &[MemoryFile], name: &str, at: u64, into: &mut [u8]) -> usize
    ensures bound { result ≤ length into.new }
    ensures bytes { IsRead (held_of files.now name.now) 0 0 at into.new result }
{
    match find(files, name) {
        Some(file) => copy_from(file.bytes.as_slice(), at, into),
        None => 0,
    }
}

/// Files in memory, which never fail. They tell what they hold.
#[derive(Drop)]
pub struct MemoryFiles {
    pub files: Vec<MemoryFile>,
}

impl Files for MemoryFiles {
    ghost holds = { λ s name. held_of s.files.items name };

    ghost faults = { λ _ _. 0 };

    ghost missing = { λ _ _. 0 };

    ghost reads = { λ _ _ _ _ _. Unit {0} };

    fn size(&mut self, name: &str) -> Result<Option<u64>, ReadFailed> {
        Ok(size_of(self.files.as_slice(), name))
    }

    fn read_at(&mut self, name: &str, at: u64, into: &mut [u8]) -> Result<usize, ReadFailed> {
        Ok(read_from(self.files.as_slice(), name, at, into))
    }
}

/// Files in memory of which the calls of a list fail. They tell what they hold.
#[derive(Drop)]
pub struct FailingFiles<'a> {
    pub files: Vec<MemoryFile>,
    /// The numbers of the calls that fail. Calls of `size` and of `read_at` are counted together, from 0.
    pub fails: Vec<u64>,
    pub calls: u64,
    /// Failures of the two names that were given.
    pub faults: Counts<'a>,
}

impl<'a> FailingFiles<'a> {
    /// Failures of two names are counted.
    pub fn new(
        files: Vec<MemoryFile>,
        fails: Vec<u64>,
        first: &'a str,
        second: &'a str,
    ) -> FailingFiles<'a>
        ensures files { result.files ≡ files }
        ensures fails { result.fails ≡ fails }
        ensures calls { result.calls ≡ 0 }
    {
        FailingFiles {
            files,
            fails,
            calls: 0,
            faults: Counts::new(first, second),
        }
    }

    /// Counts a call for a name, and its failure where it is one that fails.
    fn count(&mut self, name: &str) -> Result<(), ReadFailed>
        ensures files { self.new.files ≡ self.old.files }
        ensures fails { self.new.fails ≡ self.old.fails }
        ensures due { MatchResult result (λ _. ¬ Contains self.old.fails.items self.old.calls) (λ _. Contains self.old.fails.items self.old.calls) }
        ensures others { (other : List ℕ) → other ≢ name.now → counts_of self.new.faults other ≡ counts_of self.old.faults other }
        ensures cause { HasCause (counts_of self.old.faults name.now) (counts_of self.new.faults name.now) result }
    {
        let fails = self.fails.contains(&self.calls);
        self.calls = self.calls.saturating_add(1);
        if fails {
            self.faults.more(name);
            return Err(ReadFailed);
        }
        Ok(())
    }
}

impl<'a> Files for FailingFiles<'a> {
    ghost holds = { λ s name. held_of s.files.items name };

    ghost faults = { λ s. counts_of s.faults };

    ghost missing = { λ _ _. 0 };

    ghost reads = { λ _ _ _ _ _. Unit {0} };

    fn size(&mut self, name: &str) -> Result<Option<u64>, ReadFailed> {
        self.count(name)?;
        Ok(size_of(self.files.as_slice(), name))
    }

    fn read_at(&mut self, name: &str, at: u64, into: &mut [u8]) -> Result<usize, ReadFailed> {
        self.count(name)?;
        Ok(read_from(self.files.as_slice(), name, at, into))
    }
}
