//! Words in pages, which cost memory only where they are set.
ghost use Rattle.std.specs.Prelude.{◌≡◌, ◌≤◌, ◌<◌, ◌+◌, ◌*◌, ◌^◌, ◌++◌, ℕ, length};
ghost use Rattle.std.specs.Prelude.{replicate, set, get_or, vec_capacity, slice_index, IfOk};
ghost use Rattle.phys_mem.specs.Pages.{AreFrames, word_at};

use std::alloc::{AllocError, Global};
use std::marker::Model;

/// The words of a page: 4 KiB.
const PAGE: usize = 512;

/// Words, all 0 at first, in pages of 512. A page gets a frame, room for its words, when the first of them is set. Until then
/// its words are read from frame 0, whose words are always 0. Room for a frame of each page is reserved at the start, and
/// only the frames that pages have got are touched. So memory costs what is set, and no later call takes memory or fails.
#[derive(Drop)]
pub struct PagedWords {
    /// The number of each page's frame: 0 where it has none of its own.
    frame_of: Vec<usize>,
    /// The words of the frames, one frame behind the other, in the order in which pages got them.
    frames: Vec<u64>,
    /// How many words there are. The last page may reach beyond them.
    count: usize,
}

impl Model for PagedWords {
    ghost use Rattle.std.specs.Prelude.{◌≤◌, ◌*◌, List, ℕ, length, vec_capacity};
    ghost use Rattle.phys_mem.specs.Pages.{AreFrames, listed, word_at};

    ghost Value = { List ℕ };

    ghost view = { λ w. listed w.count 0 (word_at w.frame_of.items w.frames.items) };

    ghost invariant = { λ w. AreFrames w.frame_of.items w.frames.items (vec_capacity w.frames) × (w.count ≤ 512 * length w.frame_of.items) };
}

/// Appends a frame of 0, for which there is room.
fn add_frame(frames: &mut Vec<u64>)
    requires { length frames.old.items + 512 ≤ vec_capacity frames.old }
    ensures items { frames.new.items ≡ frames.old.items ++ replicate 512 0 }
    ensures capacity { vec_capacity frames.new ≡ vec_capacity frames.old }
{
    for _word in 0..PAGE {
        frames.push_reserved(0);
    }
}

/// The frame of a page. A page that has none of its own gets the next one, full of 0, so no word changes.
fn frame_for(frame_of: &mut Vec<usize>, frames: &mut Vec<u64>, page: usize) -> usize
    requires frames { AreFrames frame_of.old.items frames.old.items (vec_capacity frames.old) }
    requires page { page < length frame_of.old.items }
    ensures frames { AreFrames frame_of.new.items frames.new.items (vec_capacity frames.new) }
    ensures is { result ≡ get_or frame_of.new.items page 0 }
    ensures own { 0 < result }
    ensures whole { 512 * result + 512 ≤ length frames.new.items }
    ensures pages { length frame_of.new.items ≡ length frame_of.old.items }
    ensures words { (k : ℕ) → word_at frame_of.new.items frames.new.items k ≡ word_at frame_of.old.items frames.old.items k }
{
    let frame = frame_of[page];
    if frame > 0 {
        return frame;
    }
    let next = frames.len() / PAGE;
    add_frame(frames);
    frame_of[page] = next;
    next
}

impl PagedWords {
    /// So many words of 0.
    pub fn zeros(alloc: Global, count: usize) -> Result<PagedWords, AllocError>
        requires { count ≤ 2 ^ 32 }
        ensures { IfOk result (λ w. w ≡ replicate count 0) }
    {
        let pages = count.div_ceil(PAGE);
        let frame_of = vec![in alloc; 0usize; pages]?;
        let mut frames = Vec::with_capacity(alloc, PAGE * (pages + 1))?;
        add_frame(&mut frames);
        Ok(PagedWords {
            frame_of,
            frames,
            count,
        })
    }

    /// A word.
    pub fn get(&self, index: usize) -> u64
        requires { index < length self.now }
        ensures { result ≡ slice_index self.now index }
    {
        let frame = self.frame_of[index / PAGE];
        self.frames[PAGE * frame + index % PAGE]
    }

    /// Changes a word.
    pub fn set(&mut self, index: usize, value: u64)
        requires { index < length self.old }
        ensures { self.new ≡ set self.old index value }
    {
        let frame = frame_for(&mut self.frame_of, &mut self.frames, index / PAGE);
        self.frames[PAGE * frame + index % PAGE] = value;
    }
}
