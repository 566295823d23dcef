use fault_codes::Stage;
use std::marker::Model;
use sysregs::Config;
use tlbi_ops::Tag;
use trails::{Item, Trail};
use walk_spec::Region;

/// What a row keeps: a leaf of stage 1 combined with the stage 2 of its output, a table of stage 1, a leaf of stage 2, or a
/// table of stage 2. A core has a cache of each.
#[derive(Clone, Copy, Debug, PartialEq, Eq)]
pub enum Kind {
    Leaf1,
    Table1,
    Leaf2,
    Table2,
}

/// When a row was made: at the end of a step, as the one of this number among the rows of that step.
#[derive(Clone, Copy)]
pub struct Made {
    pub step: u32,
    pub order: u32,
}

/// What the registers say of which rows serve.
#[derive(Clone, Copy)]
pub struct Key {
    pub config: Config,
    pub vmid: u16,
    pub asid: u16,
}

/// A row: its trail; what an invalidation looks at; the registers under which it was made, of which the ASID of a row of stage 2
/// is 0; the addresses that it serves; when it was made; its kind; and whether it is a leaf that serves under every ASID.
#[derive(Drop)]
pub struct Row {
    pub trail: Trail,
    pub tag: Tag,
    pub key: Key,
    pub region: Region,
    pub made: Made,
    pub kind: Kind,
    pub global: bool,
}

/// A row whose trail is lent: what comes into a cache, which copies the items.
#[derive(Drop)]
pub struct LentRow<'a> {
    pub trail: &'a [Item],
    pub tag: Tag,
    pub key: Key,
    pub region: Region,
    pub made: Made,
    pub kind: Kind,
    pub global: bool,
}

impl<'a> Model for LentRow<'a> {
    ghost use Rattle.std.specs.Prelude.{◌≤◌, length};
    ghost use Rattle.trails.specs.Lengths.{most_items};
    ghost use Rattle.tagged_tlb.specs.declared.row.Row.{Row};

    ghost Value = { Row };

    ghost view = { λ r. record {
      trail = r.trail.now;
      tag = r.tag;
      key = r.key;
      region = r.region;
      made = r.made;
      kind = r.kind;
      global = r.global;
    } };

    ghost invariant = { λ r. length r.trail.now ≤ most_items };
}

/// What a search looks for: the rows of a stage that serve an address in bytes under a key. A row of stage 1 serves by its ASID
/// too, unless its leaf is global.
#[derive(Clone, Copy)]
pub struct Sought {
    pub key: Key,
    pub at: u64,
    pub stage: Stage,
}
