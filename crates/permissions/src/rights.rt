ghost use Rattle.std.specs.Prelude.{◌≡◌, ◌<◌, ◌^◌};
ghost use Rattle.permissions.specs.Rights.{perms_of, set_bits, has, rights1, rights2, both_give, needed, is_guarded, is_allowed1, is_allowed2};

use crate::bits::{Bits1, El, Kind, TableBits};
use crate::set::Perms;
use bitflags::Flags;

/// The set of six rights.
#[tactic(auto, unfolding(crate::specs::Rights::perms_of))]
fn set_of(r0: bool, w0: bool, x0: bool, r1: bool, w1: bool, x1: bool) -> Perms
    ensures { result ≡ perms_of (record { r0 = r0; w0 = w0; x0 = x0; r1 = r1; w1 = w1; x1 = x1 }) }
{
    Perms::from_bits_retain(
        u8::from(r0)
            + 2 * u8::from(w0)
            + 4 * u8::from(x0)
            + 8 * u8::from(r1)
            + 16 * u8::from(w1)
            + 32 * u8::from(x1),
    )
}

/// The rights that a stage 1 leaf gives under the tables above it. `dirty` says that hardware manages access flags
/// and dirty state, and `wxn` is `SCTLR_EL1`.WXN.
pub fn perms1(leaf: Bits1, tables: TableBits, dirty: bool, wxn: bool) -> Perms
    ensures { result ≡ perms_of (rights1 leaf tables dirty wxn) }
{
    let writable = !(tables.read_only | (leaf.read_only & !(dirty & leaf.dbm)));
    let user = leaf.el0 & !tables.no_el0;
    let user_writes = user & writable;
    let user_fetches = !(leaf.uxn | tables.uxn) & !(wxn & user_writes);
    let fetches = !(leaf.pxn | tables.pxn) & !user_writes & !(wxn & writable);
    set_of(user, user_writes, user_fetches, true, writable, fetches)
}

/// The rights that a stage 2 leaf gives: S2AP's read and write, XN[1:0], DBM. `dirty` says that hardware manages
/// access flags and dirty state.
pub fn perms2(read: bool, write: bool, xn: u32, dbm: bool, dirty: bool) -> Perms
    requires { xn < 4 }
    ensures { result ≡ perms_of (rights2 read write xn dbm dirty) }
{
    let writable = write | (dirty & dbm);
    let el0_fetches = read & ((xn == 0) | (xn == 1));
    let el1_fetches = read & ((xn == 0) | (xn == 3));
    set_of(read, writable, el0_fetches, read, writable, el1_fetches)
}

/// The right that an access needs.
#[tactic(auto, unfolding(crate::specs::Rights::set_bits))]
fn right(el: El, kind: Kind) -> Perms
    ensures { set_bits result ≡ 2 ^ needed el kind }
{
    match (el, kind) {
        (El::El0, Kind::Read) => Perms::R0,
        (El::El0, Kind::Write) => Perms::W0,
        (El::El0, Kind::Fetch) => Perms::X0,
        (El::El1, Kind::Read) => Perms::R1,
        (El::El1, Kind::Write) => Perms::W1,
        (El::El1, Kind::Fetch) => Perms::X1,
    }
}

/// Whether PSTATE.PAN bears on the access.
fn guarded(el: El, kind: Kind) -> bool
    ensures { result ≡ is_guarded el kind }
{
    match (el, kind) {
        (El::El1, Kind::Read | Kind::Write) => true,
        _ => false,
    }
}

/// Whether a set has the right that an access needs.
#[tactic(auto, unfolding(crate::specs::Rights::has, crate::specs::Rights::set_bits), using(crate::proofs::Sets::one_bit))]
fn gives(perms: Perms, el: El, kind: Kind) -> bool
    ensures { result ≡ has perms (needed el kind) }
{
    perms.contains(right(el, kind))
}

/// Whether stage 1 permits an access. `uxn` is the joined UXN, `pan` is PSTATE.PAN, and `epan` is `SCTLR_EL1`.EPAN.
#[tactic(auto, unfolding(crate::specs::Rights::is_allowed1))]
pub fn allows1(perms: Perms, uxn: bool, el: El, kind: Kind, pan: bool, epan: bool) -> bool
    ensures { result ≡ is_allowed1 perms uxn el kind pan epan }
{
    let el0_uses = gives(perms, El::El0, Kind::Read) | (epan & !uxn);
    gives(perms, el, kind) & !(pan & guarded(el, kind) & el0_uses)
}

/// Whether stage 2 permits an access.
#[tactic(auto, unfolding(crate::specs::Rights::is_allowed2))]
pub fn allows2(perms: Perms, el: El, kind: Kind) -> bool
    ensures { result ≡ is_allowed2 perms el kind }
{
    gives(perms, el, kind)
}

/// The rights that both stages give.
pub fn both(one: Perms, two: Perms) -> Perms
    ensures { result ≡ perms_of (both_give one two) }
{
    set_of(
        gives(one, El::El0, Kind::Read) & gives(two, El::El0, Kind::Read),
        gives(one, El::El0, Kind::Write) & gives(two, El::El0, Kind::Write),
        gives(one, El::El0, Kind::Fetch) & gives(two, El::El0, Kind::Fetch),
        gives(one, El::El1, Kind::Read) & gives(two, El::El1, Kind::Read),
        gives(one, El::El1, Kind::Write) & gives(two, El::El1, Kind::Write),
        gives(one, El::El1, Kind::Fetch) & gives(two, El::El1, Kind::Fetch),
    )
}
