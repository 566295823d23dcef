//! What is searched of a row, without its trail.
ghost use Rattle.std.specs.Prelude.{◌≡◌};
ghost use Rattle.sysregs.specs.Equality.{same_fields};
ghost use Rattle.tagged_tlb.specs.Slots.{head_with, key_of_head, is_keyed, is_hit};

use crate::row::{Key, Kind, LentRow, Made, Sought};
use fault_codes::Stage;
use sysregs::{Config, same_config};
use tlbi_ops::Tag;
use walk_spec::Region;

/// What a row keeps beside its trail, and the slot of the trail in its set.
#[derive(Clone, Copy)]
pub struct Head {
    pub region: Region,
    pub made: Made,
    pub key: Key,
    pub tag: Tag,
    pub slot: usize,
    pub kind: Kind,
    pub global: bool,
}

/// The head of a row whose trail lies in a slot.
pub(crate) fn head_of(row: &LentRow, slot: usize) -> Head
    ensures { result ≡ head_with row.now slot }
{
    Head {
        region: row.region,
        made: row.made,
        key: row.key,
        tag: row.tag,
        slot,
        kind: row.kind,
        global: row.global,
    }
}

/// Whether the register fields of both are equal.
#[tactic(auto, using(sysregs::proofs::Configs::equal_configs))]
fn same_fields(a: &Config, b: &Config) -> bool
    ensures { result ≡ same_fields a.now b.now }
{
    same_config(a, b)
}

/// Whether the row of a head would serve the same as another.
pub(crate) fn has_key(row: &LentRow, head: &Head) -> bool
    ensures { result ≡ key_of_head row.now head.now }
{
    row.kind == head.kind
        && row.region.class == head.region.class
        && row.region.start == head.region.start
        && row.key.vmid == head.key.vmid
        && row.key.asid == head.key.asid
        && row.global == head.global
        && same_fields(&row.key.config, &head.key.config)
}

/// Whether the row of a head serves under a VMID, an ASID and register fields.
fn has_sought_key(sought: &Sought, head: &Head) -> bool
    ensures { result ≡ is_keyed sought.now head.now }
{
    head.key.vmid == sought.key.vmid
        && (sought.stage == Stage::S2 || head.global || head.key.asid == sought.key.asid)
        && same_fields(&head.key.config, &sought.key.config)
}

/// Whether the row of a head serves what is sought, as one of a class. `start` is the address counted in regions of that class.
pub(crate) fn hits(sought: &Sought, class: u32, start: u64, head: &Head) -> bool
    ensures { result ≡ is_hit sought.now class start head.now }
{
    head.region.start == start && head.region.class == class && has_sought_key(sought, head)
}
