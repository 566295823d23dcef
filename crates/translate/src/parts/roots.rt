//! The base of each stage.
ghost use Rattle.std.specs.Prelude.{◌≡◌, ◌<◌, ◌%◌, ◌^◌, ◌∷◌, [], ◌++◌, length, true, false, IsTrue, IfOk, MatchResult};
ghost use Rattle.geometry.specs.Tables.{level_of};
ghost use Rattle.sysregs.specs.Registers.{InRange, config_of};
ghost use Rattle.permissions.specs.Rights.{no_bits};
ghost use Rattle.fault_codes.specs.declared.fault.Class.TheVariants.{AddressSize};
ghost use Rattle.fault_codes.specs.declared.fault.Stage.TheVariants.{S1, S2};
ghost use Rattle.trails.specs.Lengths.{most_items};
ghost use Rattle.table_reads.specs.Numbers.{AreSound, is_sized1, is_sized2};
ghost use Rattle.table_reads.specs.Items.{base_item};
ghost use Rattle.table_reads.specs.Places;
ghost use Rattle.walk_spec.specs.Fresh.{start_base1, start_base2};
ghost use Rattle.stage1_walk.specs.Clauses;
ghost use Rattle.stage2_walk.specs.Clauses as Clauses2;
ghost use Rattle.translate.specs.Parts.{AreFieldsOf, root1_of, root2_of};
ghost use Rattle.translate.specs.Deep.{walker1};

use crate::parts::refusals::refusal;
use fault_codes::{Class, Fault, Stage};
use permissions::TableBits;
use stage1_walk::{From1, sizes1};
use stage2_walk::{From2, sizes2};
use sysregs::fields::{base1, base2};
use sysregs::{Config, Regs, Side};
use table_reads::{Sizes, Walker, is_too_large, keep_base, start_base};
use trails::Trail;
use walk_spec::Table1;

/// The numbers of stage 1 for a side.
#[tactic(auto, using(crate::proofs::Fields::same_sizes1))]
fn sizes_of1(regs: &Regs, config: &Config, side: Side) -> Sizes
    requires fields { AreFieldsOf config.now regs.now }
    requires config { InRange config.now }
    requires sized { IsTrue (is_sized1 config.now side) }
    ensures value { result ≡ Rattle.table_reads.specs.Numbers.sizes1 (config_of regs.now) side }
    ensures sound { AreSound result }
{
    sizes1(config, side)
}

/// The base of stage 1 for a side.
#[tactic(auto, using(sysregs::proofs::Granules::base_below))]
pub(crate) fn base_of1(regs: &Regs, side: Side, sizes: &Sizes) -> u64
    requires sizes { sizes.now ≡ Rattle.table_reads.specs.Numbers.sizes1 (config_of regs.now) side }
    requires sound { AreSound sizes.now }
    ensures value { result ≡ start_base1 regs.now side }
    ensures below { result < 2 ^ 52 }
    ensures eights { result % 8 ≡ 0 }
{
    start_base(sizes, base1(regs, side))
}

/// Stage 1 at a moment.
pub(crate) fn walker1(moment: u32) -> Walker
    ensures { result ≡ walker1 moment }
{
    Walker {
        moment,
        stage: Stage::S1,
        s1ptw: false,
    }
}

/// Appends the base of a stage, and refuses one that is too large.
pub(crate) fn keep_root(
    walker: &Walker,
    sizes: &Sizes,
    base: u64,
    trail: &mut Trail,
) -> Result<(), Fault>
    requires sound { AreSound sizes.now }
    requires room { length trail.old < most_items }
    ensures item { trail.new ≡ trail.old ++ base_item walker.now.moment walker.now.stage sizes.now base ∷ [] }
    ensures small { MatchResult result (λ _. Places.is_too_large sizes.now base ≡ false)
        (λ f. (Places.is_too_large sizes.now base ≡ true) × (f ≡ Rattle.translate.specs.Parts.refusal walker.now.stage walker.now.s1ptw AddressSize)) }
{
    keep_base(walker, sizes, base, trail);
    if is_too_large(sizes, base) {
        return Err(refusal(walker.stage, walker.s1ptw, Class::AddressSize));
    }
    Ok(())
}

/// The start table of stage 1, without bits of tables above it.
pub(crate) fn start_table(base: u64) -> Table1
    ensures { result ≡ record { address = base; bits = no_bits } }
{
    Table1 {
        address: base,
        bits: TableBits {
            no_el0: false,
            read_only: false,
            pxn: false,
            uxn: false,
        },
    }
}

/// The same as a table to walk from.
fn first1(base: u64, level: i8) -> From1
    ensures { result ≡ record { base = base; level = level; tables = no_bits } }
{
    From1 {
        base,
        level,
        tables: start_table(base).bits,
    }
}

/// Appends the base of stage 1 for a side, with this moment, and answers its table, without bits of tables above it, or
/// the fault of a base that is too large. `level` is the side's start level.
pub fn root1(
    regs: &Regs,
    config: &Config,
    side: Side,
    level: i8,
    moment: u32,
    trail: &mut Trail,
) -> Result<From1, Fault>
    requires fields { AreFieldsOf config.now regs.now }
    requires config { InRange config.now }
    requires sized { IsTrue (is_sized1 config.now side) }
    requires level { level ≡ level_of (Rattle.table_reads.specs.Numbers.sizes1 config.now side).start }
    requires room { length trail.old < most_items }
    ensures item { trail.new
        ≡ trail.old ++ base_item moment S1 (Rattle.table_reads.specs.Numbers.sizes1 (config_of regs.now) side) (start_base1 regs.now side) ∷ [] }
    ensures value { result ≡ root1_of regs.now side }
    ensures table { IfOk result (Clauses.IsTableOf config.now side) }
{
    let sizes = sizes_of1(regs, config, side);
    let base = base_of1(regs, side, &sizes);
    match keep_root(&walker1(moment), &sizes, base, trail) {
        Ok(()) => Ok(first1(base, level)),
        Err(fault) => Err(fault),
    }
}

/// The numbers of stage 2.
#[tactic(auto, using(crate::proofs::Fields::same_sizes2))]
fn sizes_of2(regs: &Regs, config: &Config) -> Sizes
    requires fields { AreFieldsOf config.now regs.now }
    requires config { InRange config.now }
    requires sized { IsTrue (is_sized2 config.now) }
    ensures value { result ≡ Rattle.table_reads.specs.Numbers.sizes2 (config_of regs.now) }
    ensures sound { AreSound result }
{
    sizes2(config)
}

/// The base of stage 2.
#[tactic(auto, using(sysregs::proofs::Granules::base_below))]
pub(crate) fn base_of2(regs: &Regs, sizes: &Sizes) -> u64
    requires sizes { sizes.now ≡ Rattle.table_reads.specs.Numbers.sizes2 (config_of regs.now) }
    requires sound { AreSound sizes.now }
    ensures value { result ≡ start_base2 regs.now }
    ensures below { result < 2 ^ 52 }
    ensures eights { result % 8 ≡ 0 }
{
    start_base(sizes, base2(regs))
}

/// The start table of stage 2.
fn first2(base: u64, level: i8) -> From2
    ensures { result ≡ record { base = base; level = level } }
{
    From2 { base, level }
}

/// Appends the base of stage 2, with this moment, and answers its table, or the fault of a base that is too large.
/// `level` is the start level of stage 2, and `ptw` marks the place of a stage 1 descriptor.
pub fn root2(
    regs: &Regs,
    config: &Config,
    level: i8,
    ptw: bool,
    moment: u32,
    trail: &mut Trail,
) -> Result<From2, Fault>
    requires fields { AreFieldsOf config.now regs.now }
    requires config { InRange config.now }
    requires sized { IsTrue (is_sized2 config.now) }
    requires level { level ≡ level_of (Rattle.table_reads.specs.Numbers.sizes2 config.now).start }
    requires room { length trail.old < most_items }
    ensures item { trail.new ≡ trail.old ++ base_item moment S2 (Rattle.table_reads.specs.Numbers.sizes2 (config_of regs.now)) (start_base2 regs.now) ∷ [] }
    ensures value { result ≡ root2_of regs.now ptw }
    ensures table { IfOk result (Clauses2.IsTableOf config.now) }
{
    let sizes = sizes_of2(regs, config);
    let base = base_of2(regs, &sizes);
    let walker = Walker {
        moment,
        stage: Stage::S2,
        s1ptw: ptw,
    };
    match keep_root(&walker, &sizes, base, trail) {
        Ok(()) => Ok(first2(base, level)),
        Err(fault) => Err(fault),
    }
}
