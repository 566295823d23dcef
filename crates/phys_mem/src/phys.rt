ghost use Rattle.std.specs.Prelude.{◌≡◌, ◌≤◌, ◌+◌, ◌*◌, ◌&&◌, length, All, is_some, IfOk, IfErr, IfSome, MatchBool};
ghost use Rattle.phys_mem.specs.Memory.{zeros, stored_at, loaded, is_aligned};
ghost use Rattle.phys_mem.specs.Ranges.{bytes_of, refusal_of, refusal_in};
ghost use Rattle.phys_mem.specs.Words.{IsWhole, AreHeld, memory_of, index_from, index_of};

use crate::checks::check;
use crate::paged_words::PagedWords;
use crate::ranges::{WORD, bytes_in, is_aligned};
use crate::refusal::PhysError;
use std::alloc::Global;
use std::marker::Model;

/// Physical memory: ranges of words. A load takes time in proportion to the number of ranges, and memory is touched for the
/// pages that were stored to.
#[derive(Drop)]
pub struct Phys {
    ranges: Vec<(u64, u64)>,
    words: PagedWords,
}

impl Model for Phys {
    ghost use Rattle.phys_mem.specs.Words.{Held, IsHeld};

    ghost Value = { Held };

    ghost view = { λ p. record { ranges = p.ranges.items; words = p.words } };

    ghost invariant = { λ p. IsHeld (record { ranges = p.ranges.items; words = p.words }) };
}

/// Which word holds the eight bytes from a place on, where the words of all ranges stand one behind the other.
fn index_in(ranges: &[(u64, u64)], pa: u64) -> Option<usize>
    requires { AreHeld ranges.now }
    ensures { result ≡ index_from 0 ranges.now pa }
{
    let mut first = 0;
    for &(start, length) in ranges {
        if start <= pa && pa - start <= length - WORD {
            return Some(first + ((pa - start) / WORD) as usize);
        }
        first += (length / WORD) as usize;
    }
    None
}

/// Which word holds the eight bytes from a place on, and that it is there.
fn index_at(ranges: &[(u64, u64)], pa: u64) -> Option<usize>
    requires { AreHeld ranges.now }
    ensures is { result ≡ index_from 0 ranges.now pa }
    ensures within { IfSome result (λ k. 8 * k + 8 ≤ bytes_of ranges.now) }
{
    index_in(ranges, pa)
}

/// Which word stands at a place.
fn index_of(ranges: &[(u64, u64)], pa: u64) -> Option<usize>
    requires { AreHeld ranges.now }
    ensures is { result ≡ index_of ranges.now pa }
    ensures within { IfSome result (λ k. 8 * k + 8 ≤ bytes_of ranges.now) }
{
    if is_aligned(pa) {
        index_at(ranges, pa)
    } else {
        None
    }
}

impl Phys {
    /// Memory of these ranges, each a start and a length in bytes. All its bytes are 0.
    pub fn of(alloc: Global, ranges: &[(u64, u64)]) -> Result<Phys, PhysError>
        ensures memory { IfOk result (λ p. memory_of p ≡ zeros ranges.now) }
        ensures ranges { IfOk result (λ p. p.ranges ≡ ranges.now) }
        ensures accepted { IfOk result (λ _. refusal_of ranges.now ≡ None) }
        ensures refused { IfErr result (λ e. refusal_of ranges.now ≡ refusal_in e) }
    {
        check(ranges)?;
        let words = PagedWords::zeros(alloc, (bytes_in(ranges) / WORD) as usize)?;
        let ranges = Vec::from_slice(alloc, ranges)?;
        Ok(Phys { ranges, words })
    }

    /// The word at a place in bytes. None where the place isn't a multiple of 8, or the word isn't whole in one range.
    pub fn load(&self, pa: u64) -> Option<u64>
        ensures { result ≡ loaded (memory_of self.now) pa }
    {
        let index = index_of(self.ranges.as_slice(), pa)?;
        Some(self.words.get(index))
    }

    /// What stands at a place in bytes: its word where the place is a multiple of 8, and else 0. None where the eight bytes from
    /// it on aren't whole in one range.
    #[tactic(auto, unfolding(crate::specs::Words::memory_of))]
    pub fn seen(&self, pa: u64) -> Option<u64>
        ensures { result ≡ memory_of self.now pa }
    {
        let index = index_at(self.ranges.as_slice(), pa)?;
        Some(if is_aligned(pa) {
            self.words.get(index)
        } else {
            0
        })
    }

    /// Changes the word at a place in bytes, and answers whether there is one.
    pub fn store(&mut self, pa: u64, value: u64) -> bool
        ensures there { result ≡ (is_aligned pa && is_some (memory_of self.old pa)) }
        ensures after { MatchBool result (memory_of self.new ≡ stored_at (memory_of self.old) pa value) (self.new ≡ self.old) }
        ensures ranges { self.new.ranges ≡ self.old.ranges }
    {
        let Some(index) = index_of(self.ranges.as_slice(), pa) else {
            return false;
        };
        self.words.set(index, value);
        true
    }
}
