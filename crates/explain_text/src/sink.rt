ghost use Rattle.std.specs.Prelude.{◌≡◌, ◌≤◌, ℕ, List, [], Option, Some, None, false, if◌then◌else◌};
ghost use Rattle.std.specs.Vec.{vec_capacity};
ghost use Rattle.bitwords.specs.Causes.{HasCause};
ghost use Rattle.explain_text.specs.Written.{Wrote};

use std::alloc::Global;
use std::io;

/// A piece was not taken whole.
#[derive(Clone, Copy, Debug)]
pub struct WriteFailed;

/// Takes bytes in order.
pub trait Sink {
    /// What was written, where that is told.
    ghost written: { Self → Option (List ℕ) };

    /// How often a call has failed.
    ghost faults: { Self → ℕ };

    /// Appends the piece, or at `Err` a prefix of it.
    fn put(&mut self, piece: &[u8]) -> Result<(), WriteFailed>
        ensures text { Wrote (written self.old) (written self.new) result piece.now }
        ensures cause { HasCause (faults self.old) (faults self.new) result };
}

/// A sink over a writer. It doesn't tell what was written.
#[derive(Drop)]
pub struct Adapter<W> {
    inner: W,
    faults: u64,
}

impl<W: io::Write> Adapter<W> {
    pub fn new(inner: W) -> Adapter<W> {
        Adapter { inner, faults: 0 }
    }
}

impl<W: io::Write> Sink for Adapter<W> {
    ghost written = { λ _. None };

    ghost faults = { λ s. s.faults };

    /// A write that takes nothing of what is left fails, by `write_all`.
    fn put(&mut self, piece: &[u8]) -> Result<(), WriteFailed> {
        match self.inner.write_all(piece) {
            Ok(()) => Ok(()),
            Err(_) => {
                self.faults = self.faults.saturating_add(1);
                Err(WriteFailed)
            }
        }
    }
}

/// Keeps what is written, and never fails. Where memory is refused it stops telling.
#[derive(Drop)]
pub struct QuietMemory {
    pub bytes: Vec<u8>,
    pub lost: bool,
}

impl QuietMemory {
    pub fn new(alloc: Global) -> QuietMemory
        ensures bytes { result.bytes.items ≡ [] }
        ensures told { result.lost ≡ false }
    {
        QuietMemory {
            bytes: Vec::new(alloc),
            lost: false,
        }
    }

    /// A sink with room for so many bytes. Where memory for them is refused it tells nothing.
    pub fn with_room(alloc: Global, room: usize) -> QuietMemory
        ensures bytes { result.bytes.items ≡ [] }
        ensures room { result.lost ≡ false → room ≤ vec_capacity result.bytes }
        ensures told { room ≡ 0 → result.lost ≡ false }
    {
        match Vec::with_capacity(alloc, room) {
            Ok(bytes) => QuietMemory { bytes, lost: false },
            Err(_) => QuietMemory {
                bytes: Vec::new(alloc),
                lost: true,
            },
        }
    }
}

impl Sink for QuietMemory {
    ghost written = { λ s. if s.lost then None else Some s.bytes.items };

    ghost faults = { λ _. 0 };

    fn put(&mut self, piece: &[u8]) -> Result<(), WriteFailed> {
        if !self.lost && self.bytes.extend_from_slice(piece).is_err() {
            self.lost = true;
        }
        Ok(())
    }
}

/// Keeps what is written. The calls of a list fail after so many bytes of their piece, and so does a call that is
/// refused memory.
#[derive(Drop)]
pub struct FailingMemory {
    pub bytes: Vec<u8>,
    /// The number of a call, counted from 0, and how many bytes it takes before it fails.
    pub fails: Vec<(u64, usize)>,
    pub calls: u64,
    pub faults: u64,
}

impl FailingMemory {
    pub fn new(alloc: Global, fails: Vec<(u64, usize)>) -> FailingMemory
        ensures bytes { result.bytes.items ≡ [] }
        ensures fails { result.fails ≡ fails }
        ensures calls { result.calls ≡ 0 }
        ensures faults { result.faults ≡ 0 }
    {
        FailingMemory {
            bytes: Vec::new(alloc),
            fails,
            calls: 0,
            faults: 0,
        }
    }

    /// How many bytes this call takes, where it is one that fails.
    fn fails_after(&self) -> Option<usize> {
        for (call, taken) in self.fails.iter() {
            if *call == self.calls {
                return Some(*taken);
            }
        }
        None
    }
}

impl Sink for FailingMemory {
    ghost written = { λ s. Some s.bytes.items };

    ghost faults = { λ s. s.faults };

    fn put(&mut self, piece: &[u8]) -> Result<(), WriteFailed> {
        let fails = self.fails_after();
        self.calls = self.calls.saturating_add(1);
        let taken = match fails {
            None => piece,
            Some(taken) => &piece[..taken.min(piece.len())],
        };
        let stored = self.bytes.extend_from_slice(taken);
        if fails.is_none() && stored.is_ok() {
            return Ok(());
        }
        self.faults = self.faults.saturating_add(1);
        Err(WriteFailed)
    }
}
