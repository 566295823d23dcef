//! Files of the system.
use dump_file::{Files, ReadFailed, RealFiles, read_file};
use std::cell::Cell;
use std::io;
use std::os::unix::fs::FileExt;
use std::test::Fail;

/// The program that runs this is a file of the system, which begins with 0x7f and `ELF`.
const SELF: &str = "/proc/self/exe";

#[test]
fn reads_real_files(rt: HostRuntime) -> Result<(), Fail> {
    let mut into = [0u8; 3];
    let size = std::fs::metadata(&rt, SELF)?.len();
    let mut files = RealFiles::new(&rt, rt.alloc(), SELF, "/dev/null");
    assert!(rt; files.read_at(SELF, 1, &mut into) == Ok(3));
    assert!(rt; into == *b"ELF");
    assert!(rt; files.size(SELF) == Ok(Some(size)));
    assert!(rt; files.read_at(SELF, 2, &mut into[..2]) == Ok(2));
    assert!(rt; into == *b"LFF");
    assert!(rt; files.size("/dev/null") == Ok(Some(0)));
    for at in [0, 1 << 47, u64::MAX] {
        assert!(rt; files.read_at("/dev/null", at, &mut into) == Ok(0));
    }
    assert!(rt; files.read_at("/dev/zero", 8, &mut into) == Ok(3));
    Ok(())
}

#[test]
fn tells_missing_files_from_failures(rt: HostRuntime) {
    let mut into = [0u8; 3];
    let mut files = RealFiles::new(&rt, rt.alloc(), "/", "");
    assert!(rt; files.size("/there/is/no/such/file") == Ok(None));
    assert!(rt; files.size("/") == Err(ReadFailed));
    assert!(rt; files.read_at("/", 0, &mut into) == Err(ReadFailed));
    assert!(rt; files.size("/dev/null/below") == Err(ReadFailed));
}

/// A file whose reads give the place's lowest byte, three times at most. Every other read is interrupted.
#[derive(Drop)]
struct Slow {
    reads: Cell<u32>,
}

impl FileExt for Slow {
    fn read_at(&self, into: &mut [u8], at: u64) -> io::Result<usize> {
        let reads = self.reads.get();
        self.reads.set(reads.wrapping_add(1));
        if reads % 2 == 0 {
            return Err(io::Error::from(io::ErrorKind::Interrupted));
        }
        let count = into.len().min(3);
        into[..count].fill((at % 256) as u8);
        Ok(count)
    }

    fn write_at(&self, _piece: &[u8], _at: u64) -> io::Result<usize> {
        Err(io::Error::from(io::ErrorKind::Unsupported))
    }
}

#[test]
fn goes_on_where_interrupted(rt: HostRuntime) {
    let slow = Slow {
        reads: Cell::new(0),
    };
    let mut into = [0u8; 8];
    assert!(rt; read_file(&slow, 5, &mut into).is_ok_and(|count| count == 3));
    assert!(rt; into == [5, 5, 5, 0, 0, 0, 0, 0]);
    assert!(rt; read_file(&slow, 1 << 63, &mut into).is_ok_and(|count| count == 0));
    assert!(rt; slow.reads.get() == 2);
}

/// A file that is replaced by another of its name stays the one that was opened.
#[test]
fn reads_the_file_that_was_opened(rt: HostRuntime) -> Result<(), Fail> {
    let alloc = rt.alloc();
    let id = std::process::id(rt.process());
    let name = format!(in alloc; "/tmp/vmsa-top-tests-{id}")?;
    let other = format!(in alloc; "/tmp/vmsa-top-tests-{id}-other")?;
    let mut into = [0u8; 5];
    std::fs::write(&rt, name.as_str(), "first")?;
    std::fs::write(&rt, other.as_str(), "other")?;
    let mut files = RealFiles::new(&rt, alloc, name.as_str(), "");
    assert!(rt; files.size(name.as_str()) == Ok(Some(5)));
    std::fs::rename(&rt, other.as_str(), name.as_str())?;
    assert!(rt; files.read_at(name.as_str(), 0, &mut into) == Ok(5));
    assert!(rt; into == *b"first");
    let mut again = RealFiles::new(&rt, alloc, name.as_str(), "");
    assert!(rt; again.read_at(name.as_str(), 0, &mut into) == Ok(5));
    assert!(rt; into == *b"other");
    std::fs::remove_file(&rt, name.as_str())?;
    Ok(())
}
