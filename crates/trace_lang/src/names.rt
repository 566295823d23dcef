ghost use Rattle.std.specs.Prelude.{◌≡◌, ◌≤◌, [], ◌∷◌, ◌++◌, length, map, option_map, codes, true};
ghost use Rattle.trace_lang.specs.Words.{named};
ghost use Rattle.sysregs.specs.Ops.{op_text, all_ops};
ghost use Rattle.trace_lang.specs.Events.{verbs, reg_names, op_names, origins, barriers};
ghost use Rattle.trace_lang.specs.Lines.{sizes, policies};
ghost use Rattle.trace_lang.specs.Canonical.{origin_text, barrier_text, size_text};
ghost use Rattle.trace_lang.specs.Views.{verb_of, policy_word_of};

use crate::Size;
use sysregs::{Op, Reg};
use trails::{Barrier, Origin};

/// The words that begin an event.
#[derive(Clone, Copy)]
pub enum Verb {
    Store,
    Msr,
    Settle,
    Isb,
    Tlbi,
    Dsb,
    Deliver,
    Access,
    Prefetch,
}

/// The words for a policy of the caches.
#[derive(Clone, Copy)]
pub enum PolicyWord {
    Lru,
    Fifo,
    Random,
}

/// All registers.
const REGS: [Reg; 8] = [
    Reg::SctlrEl1,
    Reg::TcrEl1,
    Reg::Ttbr0El1,
    Reg::Ttbr1El1,
    Reg::MairEl1,
    Reg::HcrEl2,
    Reg::VtcrEl2,
    Reg::VttbrEl2,
];

/// All operations of TLBI.
const OPS: [Op; 16] = [
    Op::Vmalle1,
    Op::Vae1,
    Op::Vaae1,
    Op::Vale1,
    Op::Vaale1,
    Op::Aside1,
    Op::Ipas2e1,
    Op::Ipas2le1,
    Op::Vmalls12e1,
    Op::Alle1,
    Op::Rvae1,
    Op::Rvaae1,
    Op::Rvale1,
    Op::Rvaale1,
    Op::Ripas2e1,
    Op::Ripas2le1,
];

/// The verb that a word is.
pub fn verb_named(word: &[u8]) -> Option<Verb>
    ensures { option_map verb_of result ≡ named verbs word.now }
{
    if word == b"access".as_slice() {
        Some(Verb::Access)
    } else if word == b"store".as_slice() {
        Some(Verb::Store)
    } else if word == b"msr".as_slice() {
        Some(Verb::Msr)
    } else if word == b"settle".as_slice() {
        Some(Verb::Settle)
    } else if word == b"isb".as_slice() {
        Some(Verb::Isb)
    } else if word == b"tlbi".as_slice() {
        Some(Verb::Tlbi)
    } else if word == b"dsb".as_slice() {
        Some(Verb::Dsb)
    } else if word == b"deliver".as_slice() {
        Some(Verb::Deliver)
    } else if word == b"prefetch".as_slice() {
        Some(Verb::Prefetch)
    } else {
        None
    }
}

/// The register that has this name in capitals.
pub fn register_named(word: &[u8]) -> Option<Reg>
    ensures { result ≡ named reg_names word.now }
{
    for reg in REGS {
        if word == reg.name().as_bytes() {
            return Some(reg);
        }
    }
    None
}

/// The operation that has this name without an IS.
fn local_named(word: &[u8]) -> Option<Op>
    ensures { result ≡ named (map (λ op. (op_text op, op)) all_ops) word.now }
{
    for op in OPS {
        if word == op.name().as_bytes() {
            return Some(op);
        }
    }
    None
}

/// The operation that has this name with IS at its end.
fn shared_named(word: &[u8]) -> Option<(Op, bool)>
    ensures { result ≡ named (map (λ op. (op_text op ++ codes "IS", (op, true))) all_ops) word.now }
{
    let local = word.strip_suffix(b"IS".as_slice())?;
    Some((local_named(local)?, true))
}

/// The operation, and whether the word has IS at its end.
pub fn operation_named(word: &[u8]) -> Option<(Op, bool)>
    ensures { result ≡ named op_names word.now }
{
    match local_named(word) {
        Some(op) => Some((op, false)),
        None => shared_named(word),
    }
}

/// The exception level that issues a TLBI.
pub fn origin_named(word: &[u8]) -> Option<Origin>
    ensures { result ≡ named origins word.now }
{
    if word == b"el1".as_slice() {
        Some(Origin::El1)
    } else if word == b"el2".as_slice() {
        Some(Origin::El2)
    } else {
        None
    }
}

/// Which accesses a DSB waits for.
pub fn barrier_named(word: &[u8]) -> Option<Barrier>
    ensures { result ≡ named barriers word.now }
{
    if word == b"nsh".as_slice() {
        Some(Barrier::Nsh)
    } else if word == b"ish".as_slice() {
        Some(Barrier::Ish)
    } else if word == b"sy".as_slice() {
        Some(Barrier::Sy)
    } else {
        None
    }
}

/// The word `pan`, which says that PAN is set.
pub fn pan_named(word: &[u8]) -> Option<bool>
    ensures { result ≡ named ((codes "pan", true) ∷ []) word.now }
{
    if word == b"pan".as_slice() {
        Some(true)
    } else {
        None
    }
}

/// The size of the caches that a word names.
pub fn size_named(word: &[u8]) -> Option<Size>
    ensures { result ≡ named sizes word.now }
{
    if word == b"none".as_slice() {
        Some(Size::NoRows)
    } else if word == b"small".as_slice() {
        Some(Size::Small)
    } else if word == b"medium".as_slice() {
        Some(Size::Medium)
    } else if word == b"large".as_slice() {
        Some(Size::Large)
    } else {
        None
    }
}

/// The word for a policy of the caches.
pub fn policy_named(word: &[u8]) -> Option<PolicyWord>
    ensures { option_map policy_word_of result ≡ named policies word.now }
{
    if word == b"lru".as_slice() {
        Some(PolicyWord::Lru)
    } else if word == b"fifo".as_slice() {
        Some(PolicyWord::Fifo)
    } else if word == b"random".as_slice() {
        Some(PolicyWord::Random)
    } else {
        None
    }
}

/// The word for the exception level that issues a TLBI.
pub fn origin_name(from: Origin) -> &'static [u8]
    ensures text { result.now ≡ origin_text from }
    ensures short { length result.now ≤ 10 }
{
    match from {
        Origin::El1 => b"el1",
        Origin::El2 => b"el2",
    }
}

/// The word for the accesses that a DSB waits for.
pub fn barrier_name(kind: Barrier) -> &'static [u8]
    ensures text { result.now ≡ barrier_text kind }
    ensures short { length result.now ≤ 10 }
{
    match kind {
        Barrier::Nsh => b"nsh",
        Barrier::Ish => b"ish",
        Barrier::Sy => b"sy",
    }
}

/// The word for a size of the caches.
pub fn size_name(size: Size) -> &'static [u8]
    ensures text { result.now ≡ size_text size }
    ensures short { length result.now ≤ 10 }
{
    match size {
        Size::NoRows => b"none",
        Size::Small => b"small",
        Size::Medium => b"medium",
        Size::Large => b"large",
    }
}
