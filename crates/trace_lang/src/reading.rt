ghost use Rattle.std.specs.Prelude.{◌≡◌, ◌+◌, ◌-◌, ◌^◌, ◌<◌, ℕ, map, min, nat_lt, nat_le, ◌&&◌, if◌then◌else◌};
ghost use Rattle.std.specs.List.{list_all, list_any};
ghost use Rattle.trace_lang.specs.Traces.{is_within, most_cores};
ghost use Rattle.phys_mem.specs.Ranges.{share_byte};
ghost use Rattle.trace_lang.specs.Words.{is_text};
ghost use Rattle.trace_lang.specs.declared.refusals.LineRefusal.TheVariants.{NotText, LongLine};
ghost use Rattle.trace_lang.specs.Lines.{no_lines, is_base, is_size, cores_met, range_met, caches_met, policy_by, policy_met};
ghost use Rattle.trace_lang.specs.Lines.{ranges_met, body_met, met, words_met, line_met};
ghost use Rattle.texts.specs.Results.{Gives};
ghost use Rattle.trace_lang.specs.Views.{header_of, state_of, policy_word_of, line_refusal, Steps};

use crate::cuts::{is_plain, words};
use crate::events::event;
use crate::names::{self, PolicyWord};
use crate::places::{LineError, in_range, no_word_at, number_at, refused, word_at, word_or};
use crate::{LineRefusal, Phase, Policy, Size};
use phys_mem::ranges::{bytes_in, holds_word, is_aligned, share_byte};
use std::alloc::Global;
use trails::Event;

const MOST_CORES: u64 = 8;

const MOST_RANGES: usize = 16;

const MOST_EVENTS: usize = 50000;

/// The most bytes of a line without its end.
const MOST_LINE: usize = 200;

/// Where physical memory ends at most.
const END_OF_MEMORY: u64 = 1 << 52;

/// The most bytes of all ranges: 64 MiB.
const MOST_MEMORY: u64 = 1 << 26;

/// What the lines before the events say.
#[derive(Drop)]
pub struct Head {
    pub ranges: Vec<(u64, u64)>,
    pub policy: Policy,
    pub size: Size,
    pub cores: u8,
}

/// What has been read of a trace.
#[derive(Drop)]
pub struct Reading {
    pub head: Head,
    pub events: Vec<Event>,
    pub phase: Phase,
}

fn is_count_of_cores(n: u64) -> bool
    ensures { result ≡ nat_le 1 n && nat_le n most_cores }
{
    n >= 1 && n <= MOST_CORES
}

fn is_base(base: u64) -> bool
    ensures { result ≡ is_base base }
{
    is_aligned(base) && base < END_OF_MEMORY
}

/// Whether a range of this length may begin at `base`, behind other ranges.
fn is_size(earlier: &[(u64, u64)], base: u64, size: u64) -> bool
    requires { base < 2 ^ 52 }
    ensures { result ≡ is_size earlier.now base size }
{
    is_aligned(size)
        && size > 0
        && size <= END_OF_MEMORY - base
        && bytes_in(earlier).saturating_add(size) <= MOST_MEMORY
}

/// The policy of a line with such a word.
fn policy_by(word: PolicyWord, words: &[&[u8]]) -> Result<Policy, LineError>
    ensures { Gives line_refusal (λ p. p) result (policy_by (map (λ w. w.now) words.now) (policy_word_of word)) }
{
    match word {
        PolicyWord::Lru => {
            no_word_at(words, 3)?;
            Ok(Policy::Lru)
        }
        PolicyWord::Fifo => {
            no_word_at(words, 3)?;
            Ok(Policy::Fifo)
        }
        PolicyWord::Random => {
            let start = number_at(words, 3)?;
            no_word_at(words, 4)?;
            Ok(Policy::Random { start })
        }
    }
}

impl Head {
    /// Whether the eight bytes at a place lie in one range.
    pub fn is_within(&self, place: u64) -> bool
        ensures { result ≡ is_within (header_of self.now).ranges place }
    {
        self.ranges.iter().any(|range| holds_word(*range, place))
    }

    /// Whether a range shares a byte with one that stands.
    fn shares_byte(&self, range: (u64, u64)) -> bool
        ensures { result ≡ list_any (share_byte range) (header_of self.now).ranges }
    {
        self.ranges.iter().any(|other| share_byte(range, *other))
    }
}

/// Why a line of more than MOST_LINE bytes is refused.
fn too_long(line: &[u8]) -> LineRefusal
    ensures { result ≡ (if list_all is_text line.now then LongLine else NotText) }
{
    if is_plain(line) {
        LineRefusal::LongLine
    } else {
        LineRefusal::NotText
    }
}

impl Reading {
    /// Nothing read.
    pub fn new(alloc: Global) -> Reading
        ensures { state_of result ≡ no_lines }
    {
        Reading {
            head: Head {
                ranges: Vec::new(alloc),
                policy: Policy::Fifo,
                size: Size::NoRows,
                cores: 0,
            },
            events: Vec::new(alloc),
            phase: Phase::Cores,
        }
    }

    fn cores(&mut self, words: &[&[u8]]) -> Result<(), LineError>
        ensures { Steps (state_of self.new) result (cores_met (state_of self.old) (map (λ w. w.now) words.now)) }
    {
        let n = number_at(words, 2)?;
        let n = in_range(2, is_count_of_cores(n), n)?;
        no_word_at(words, 3)?;
        self.head.cores = n as u8;
        self.phase = Phase::Ranges;
        Ok(())
    }

    fn range(&mut self, words: &[&[u8]]) -> Result<(), LineError>
        ensures { Steps (state_of self.new) result (range_met (state_of self.old) (map (λ w. w.now) words.now)) }
    {
        let base = number_at(words, 2)?;
        let base = in_range(2, is_base(base), base)?;
        let size = number_at(words, 3)?;
        let fits = is_size(self.head.ranges.as_slice(), base, size);
        let size = in_range(3, fits, size)?;
        no_word_at(words, 4)?;
        in_range(2, !self.head.shares_byte((base, size)), base)?;
        match self.head.ranges.push((base, size)) {
            Ok(()) => {
                self.phase = Phase::Ranges;
                Ok(())
            }
            Err(_) => Err(LineError::NoMemory),
        }
    }

    fn caches(&mut self, words: &[&[u8]]) -> Result<(), LineError>
        ensures { Steps (state_of self.new) result (caches_met (state_of self.old) (map (λ w. w.now) words.now)) }
    {
        let word = word_at(words, 2)?;
        let size = word_or(2, names::size_named(word))?;
        no_word_at(words, 3)?;
        self.head.size = size;
        self.phase = Phase::Policy;
        Ok(())
    }

    fn policy(&mut self, words: &[&[u8]]) -> Result<(), LineError>
        ensures { Steps (state_of self.new) result (policy_met (state_of self.old) (map (λ w. w.now) words.now)) }
    {
        let word = word_at(words, 2)?;
        let word = word_or(2, names::policy_named(word))?;
        let policy = policy_by(word, words)?;
        self.head.policy = policy;
        self.phase = Phase::Events;
        Ok(())
    }

    /// A `memory` line, or `caches`.
    fn ranges(&mut self, first: &[u8], words: &[&[u8]]) -> Result<(), LineError>
        ensures { Steps (state_of self.new) result (ranges_met (state_of self.old) first.now (map (λ w. w.now) words.now)) }
    {
        if first == b"memory".as_slice() {
            if self.head.ranges.len() >= MOST_RANGES {
                return refused(LineRefusal::TooMany);
            }
            return self.range(words);
        }
        if first == b"caches".as_slice() {
            return self.caches(words);
        }
        refused(LineRefusal::NoHeader)
    }

    /// `end`, or an event.
    fn body(&mut self, first: &[u8], words: &[&[u8]]) -> Result<(), LineError>
        ensures { Steps (state_of self.new) result (body_met (state_of self.old) first.now (map (λ w. w.now) words.now)) }
    {
        if first == b"end".as_slice() {
            no_word_at(words, 2)?;
            self.phase = Phase::Ended;
            return Ok(());
        }
        if self.events.len() >= MOST_EVENTS {
            return refused(LineRefusal::TooMany);
        }
        let event = event(&self.head, words)?;
        match self.events.push(event) {
            Ok(()) => Ok(()),
            Err(_) => Err(LineError::NoMemory),
        }
    }

    /// A line that has words, the first of which is given.
    fn met(&mut self, first: &[u8], words: &[&[u8]]) -> Result<(), LineError>
        ensures { Steps (state_of self.new) result (met self.old.phase (state_of self.old) first.now (map (λ w. w.now) words.now)) }
    {
        match self.phase {
            Phase::Cores if first == b"cores".as_slice() => self.cores(words),
            Phase::Ranges => self.ranges(first, words),
            Phase::Policy if first == b"policy".as_slice() => self.policy(words),
            Phase::Events => self.body(first, words),
            Phase::Ended => refused(LineRefusal::AfterEnd),
            _ => refused(LineRefusal::NoHeader),
        }
    }

    fn words(&mut self, words: &[&[u8]]) -> Result<(), LineError>
        ensures { Steps (state_of self.new) result (words_met (state_of self.old) (map (λ w. w.now) words.now)) }
    {
        match words.first() {
            None => Ok(()),
            Some(first) => {
                if first.first() == Some(&b'#') {
                    return Ok(());
                }
                self.met(first, words)
            }
        }
    }

    /// Reads a line without its end. `room` is for its words.
    pub fn line<'a>(&mut self, room: &mut Vec<&'a [u8]>, line: &'a [u8]) -> Result<(), LineError>
        ensures { Steps (state_of self.new) result (line_met (state_of self.old) line.now) }
    {
        if line.len() > MOST_LINE {
            return refused(too_long(line));
        }
        words(room, line)?;
        self.words(room.as_slice())
    }
}
