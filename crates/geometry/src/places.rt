ghost use Rattle.std.specs.Prelude.{◌≡◌, ◌≤◌, ◌<◌, ◌+◌, ◌-◌, ◌*◌, ◌/◌, ◌%◌, ◌^◌, ◌&&◌, Some};
ghost use Rattle.geometry.specs.Tables.{IsGranule, most_left, class_of, top_of, index_of};
ghost use Rattle.geometry.specs.Runs.{run_at, goes_to, is_counted, is_one_run, leaf_class};

use crate::case_table;
use crate::levels::{class_at, index_at};
use crate::runs::run_class;
use bitwords::power;

/// The class of a run at this level, or None where the level has no run.
#[inline(always)]
fn run_at<const G: u32>(left: u32) -> Option<u32>
    requires granule { IsGranule G }
    requires left { left ≤ most_left }
    ensures { result ≡ run_at G left }
{
    case_table!(level left; run_class::<G>())
}

/// The input bits below this one take part in the index.
#[inline(always)]
fn top<const G: u32>(input: u32, start: u32, left: u32) -> u32
    requires granule { IsGranule G }
    requires left { left ≤ start × start ≤ most_left }
    requires input { input ≤ 56 }
    ensures value { result ≡ top_of G input start left }
    ensures below { result ≤ 56 }
{
    if left == start {
        input
    } else {
        class_at::<G>(left) + (G - 3)
    }
}

/// The place in bytes of the word that an address selects in a table, which is the start table where as many levels are
/// left as at the start. `input` is the input size in bits.
#[tactic(auto, using(crate::proofs::Fits::index_small))]
#[inline(always)]
pub fn place<const G: u32>(input: u32, start: u32, left: u32, table: u64, x: u64) -> u64
    requires granule { IsGranule G }
    requires left { left ≤ start × start ≤ most_left }
    requires input { input ≤ 56 }
    requires table { table < 2 ^ 52 × table % 8 ≡ 0 }
    ensures value { result ≡ table + 8 * index_of G input start left x }
    ensures aligned { result % 8 ≡ 0 }
{
    table + 8 * index_at::<G>(left, x, top::<G>(input, start, left))
}

/// Where a word of a run stands among the run's words, as an offset in bytes of the run's output.
#[tactic(auto, using(crate::proofs::Fits::offset_small))]
fn run_offset(pa: u64, run: u32, class: u32) -> u64
    requires { class ≤ run × run ≤ 34 }
    ensures { result ≡ pa / 8 % 2 ^ (run - class) * 2 ^ class }
{
    pa / 8 % power(run - class) * power(class)
}

/// Whether the Contiguous bit counts of a leaf whose word stands at `pa`.
#[tactic(auto, using(crate::proofs::Fits::run_sizes))]
#[inline(always)]
fn counts<const G: u32>(run: u32, input: u32, left: u32, out: u64, pa: u64) -> bool
    requires granule { IsGranule G }
    requires left { left ≤ most_left }
    requires run { run_at G left ≡ Some run }
    ensures { result ≡ is_counted G input left out pa }
{
    run <= input && out % power(run) == run_offset(pa, run, class_at::<G>(left))
}

/// The class of a leaf: that of its run where the Contiguous bit is set and counts, else that of its entry. `input` is
/// the input size in bits, `out` the entry's output and `pa` the place of its word.
#[inline(always)]
pub fn leaf_class<const G: u32>(input: u32, left: u32, out: u64, contiguous: bool, pa: u64) -> u32
    requires granule { IsGranule G }
    requires left { left ≤ most_left }
    ensures { result ≡ leaf_class G input left out contiguous pa }
{
    let class = class_at::<G>(left);
    match run_at::<G>(left) {
        Some(run) if contiguous && counts::<G>(run, input, left, out, pa) => run,
        _ => class,
    }
}

/// Whether a leaf that counts as one of a run, and whose word stands at `pa`, serves another place of that run. `out` is
/// the entry's output.
#[tactic(auto, using(crate::proofs::Fits::run_sizes, crate::proofs::Fits::line_small))]
pub fn serves_run<const G: u32>(input: u32, left: u32, out: u64, pa: u64, place: u64) -> bool
    requires granule { IsGranule G }
    requires left { left ≤ most_left }
    ensures { result ≡ (is_counted G input left out pa && is_one_run G left pa place) }
{
    match run_at::<G>(left) {
        Some(run) if counts::<G>(run, input, left, out, pa) => {
            let line = 8 * power(run - class_at::<G>(left));
            pa / line == place / line
        }
        _ => false,
    }
}

/// Where an address goes by an entry or a run of this class whose output is `out`.
#[inline(always)]
pub fn goes_to(out: u64, class: u32, x: u64) -> u64
    requires class { class < 56 }
    requires out { out < 2 ^ 52 }
    ensures { result ≡ goes_to out class x }
{
    out - out % power(class) + x % power(class)
}
