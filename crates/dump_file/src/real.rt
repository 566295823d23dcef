ghost use Rattle.std.specs.Prelude.{◌≡◌, ◌≢◌, ℕ, ◌≤◌, List, length, IfOk, MatchResult, Ok, None, Some};
ghost use Rattle.std.specs.IoError.{error_kind};
ghost use Rattle.std.specs.declared.io.ErrorKind.TheVariants.{NotFound};
ghost use Rattle.bitwords.specs.Causes.{HasCause, Rose};
ghost use Rattle.dump_file.specs.Held.{Untold};
ghost use Rattle.dump_file.specs.Counted.{OthersStay};
ghost use Rattle.dump_file.specs.Counts.{counts_of};

use crate::counts::Counts;
use crate::files::{Files, ReadFailed, copy_from};
use std::alloc::Global;
use std::fs::OpenFile;
use std::io::Read;
use std::os::unix::fs::FileExt;
use std::{io, rt};

/// How often a read that was interrupted is tried.
const TRIES: u32 = u32::MAX;

/// One read from a place on. One that was interrupted goes on. A place above what the system can name lies behind every
/// file's end.
pub fn read_file<T: FileExt>(file: &T, at: u64, into: &mut [u8]) -> io::Result<usize>
    ensures { IfOk result (λ n. n ≤ length into.new) }
{
    if i64::try_from(at).is_err() {
        return Ok(0);
    }
    for _ in 0..TRIES {
        match file.read_at(into, at) {
            Err(e) if e.kind() == io::ErrorKind::Interrupted => {}
            answer => return answer,
        }
    }
    Err(io::Error::from(io::ErrorKind::Interrupted))
}

/// The most bytes that are kept of a file that can't be read at a place: those of the largest trace.
const MOST_KEPT: usize = 16 * 1024 * 1024;

/// The bytes that one read of such a file asks for.
const TURN: usize = 16 * 1024;

/// Where the bytes of a file come from.
#[derive(Drop)]
enum Source<F> {
    /// A file that is read at places, and its size in bytes when it was opened.
    File { file: F, size: u64 },
    /// All bytes of a file that can't be read at a place, as a pipe.
    Stream { bytes: Vec<u8> },
    /// Such a file with more bytes than are kept.
    Long,
}

/// Reads a file to its end.
fn stream<F: Read + Drop>(alloc: Global, file: F) -> io::Result<Source<F>> {
    let mut file = file;
    let mut bytes = Vec::new(alloc);
    let mut turn = [0u8; TURN];
    for _ in 0..u64::MAX {
        match file.read(&mut turn) {
            Ok(0) => break,
            Ok(count) => bytes.extend_from_slice(&turn[..count])?,
            Err(e) if e.kind() == io::ErrorKind::Interrupted => {}
            Err(e) => return Err(e),
        }
        if bytes.len() > MOST_KEPT {
            return Ok(Source::Long);
        }
    }
    Ok(Source::Stream { bytes })
}

/// Whether the system can't read a file at a place. No byte of it is read.
fn is_stream<F: FileExt>(file: &F) -> bool {
    match read_file(file, 0, &mut []) {
        Ok(_) => false,
        Err(e) => e.kind() == io::ErrorKind::NotSeekable,
    }
}

/// The bytes of an open file. A directory has none. A file that can't be read at a place tells no size, and is read to its end.
fn opened<F: FileExt + OpenFile + Read + Drop>(alloc: Global, file: F) -> io::Result<Source<F>> {
    let metadata = file.metadata()?;
    if metadata.is_dir() {
        return Err(io::Error::from(io::ErrorKind::IsADirectory));
    }
    let size = metadata.len();
    if size == 0 && is_stream(&file) {
        return stream(alloc, file);
    }
    Ok(Source::File { file, size })
}

impl<F: FileExt> Source<F> {
    /// The size in bytes.
    fn size(&self) -> u64 {
        match self {
            Source::File { size, .. } => *size,
            Source::Stream { bytes } => bytes.len() as u64,
            Source::Long => MOST_KEPT as u64 + 1,
        }
    }

    /// Reads from a place on.
    fn read_at(&self, at: u64, into: &mut [u8]) -> io::Result<usize>
        ensures { IfOk result (λ n. n ≤ length into.new) }
    {
        match self {
            Source::File { file, .. } => read_file(file, at, into),
            Source::Stream { bytes } => Ok(copy_from(bytes.as_slice(), at, into)),
            Source::Long => Err(io::Error::from(io::ErrorKind::FileTooLarge)),
        }
    }
}

/// The files of the system. They don't tell what they hold. Those of two names stay open, and their failures are counted by
/// name.
#[derive(Drop)]
pub struct RealFiles<'a, R: rt::Files> {
    rt: R,
    alloc: Global,
    first: Option<Source<R::File>>,
    second: Option<Source<R::File>>,
    faults: Counts<'a>,
    missing: Counts<'a>,
}

impl<'a, R: rt::Files> RealFiles<'a, R>
where
    R::File: FileExt,
{
    pub fn new(rt: R, alloc: Global, first: &'a str, second: &'a str) -> RealFiles<'a, R> {
        RealFiles {
            rt,
            alloc,
            first: None,
            second: None,
            faults: Counts::new(first, second),
            missing: Counts::new(first, second),
        }
    }

    /// The file of a name that is open.
    fn held(&self, name: &str) -> Option<&Source<R::File>> {
        if self.faults.first == name {
            self.first.as_ref()
        } else if self.faults.second == name {
            self.second.as_ref()
        } else {
            None
        }
    }

    /// Keeps a file open, where its name is one of the two.
    fn hold(&mut self, name: &str, source: Source<R::File>)
        ensures faults { self.new.faults ≡ self.old.faults }
        ensures missing { self.new.missing ≡ self.old.missing }
    {
        if self.faults.first == name {
            self.first = Some(source);
        } else if self.faults.second == name {
            self.second = Some(source);
        }
    }

    /// Opens a file.
    fn open(&self, name: &str) -> io::Result<Source<R::File>> {
        let file = std::fs::open(&self.rt, name)?;
        opened(self.alloc, file)
    }

    /// The size by the file's metadata, or by its bytes where it is read to its end.
    fn real_size(&mut self, name: &str) -> io::Result<u64>
        ensures faults { self.new.faults ≡ self.old.faults }
        ensures missing { self.new.missing ≡ self.old.missing }
    {
        if let Some(source) = self.held(name) {
            return Ok(source.size());
        }
        let source = self.open(name)?;
        let size = source.size();
        self.hold(name, source);
        Ok(size)
    }

    /// What is told of the size of a name: None where the system answers that there is no such file, and a failure where it
    /// answers another error.
    fn told_size(&mut self, name: &str, size: io::Result<u64>) -> Result<Option<u64>, ReadFailed>
        ensures told { MatchResult size (λ n. result ≡ Ok (Some n))
            (λ e. MatchResult result (λ n. (n ≡ None) × (error_kind e ≡ NotFound)) (λ _. error_kind e ≢ NotFound)) }
        ensures later { counts_of self.old.missing name.now ≤ counts_of self.new.missing name.now }
        ensures missing { result ≡ Ok None → Rose (counts_of self.old.missing name.now) (counts_of self.new.missing name.now) }
        ensures others { OthersStay name.now (counts_of self.old.faults) (counts_of self.new.faults)
            (counts_of self.old.missing) (counts_of self.new.missing) }
        ensures cause { HasCause (counts_of self.old.faults name.now) (counts_of self.new.faults name.now) result }
    {
        match size {
            Ok(size) => Ok(Some(size)),
            Err(e) => {
                if e.kind() == io::ErrorKind::NotFound {
                    self.missing.more(name);
                    Ok(None)
                } else {
                    self.faults.more(name);
                    Err(ReadFailed)
                }
            }
        }
    }

    fn real_read(&mut self, name: &str, at: u64, into: &mut [u8]) -> io::Result<usize>
        ensures bound { IfOk result (λ n. n ≤ length into.new) }
        ensures faults { self.new.faults ≡ self.old.faults }
        ensures missing { self.new.missing ≡ self.old.missing }
    {
        if let Some(source) = self.held(name) {
            return source.read_at(at, into);
        }
        let source = self.open(name)?;
        let count = source.read_at(at, into)?;
        self.hold(name, source);
        Ok(count)
    }
}

impl<'a, R: rt::Files> Files for RealFiles<'a, R>
where
    R::File: FileExt,
{
    ghost holds = { λ _ _. Untold };

    ghost faults = { λ s. counts_of s.faults };

    ghost missing = { λ s. counts_of s.missing };

    ghost reads = { λ _ _ _ _ _. Unit {0} };

    fn size(&mut self, name: &str) -> Result<Option<u64>, ReadFailed> {
        let size = self.real_size(name);
        self.told_size(name, size)
    }

    fn read_at(&mut self, name: &str, at: u64, into: &mut [u8]) -> Result<usize, ReadFailed> {
        match self.real_read(name, at, into) {
            Ok(0) => {
                self.missing.more(name);
                Ok(0)
            }
            Ok(count) => Ok(count),
            Err(_) => {
                self.faults.more(name);
                Err(ReadFailed)
            }
        }
    }
}
