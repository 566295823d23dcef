ghost use Rattle.std.specs.Prelude.{◌≡◌, [], false};
ghost use Rattle.permissions.specs.declared.bits.El.TheVariants.{El1};
ghost use Rattle.trails.specs.Printed.{HasTextStop};

use attributes::{Cache, Device, MemType, Share};
use bitflags::Flags;
use fault_codes::{Class, Fault, Stage};
use permissions::{El, Kind, Perms, TableBits};
use stage1_walk::{From1, Supply1, walk1};
use sysregs::fields::config;
use sysregs::{Regs, Tg};
use trails::{Access, Item, Stop, Trail, What};
use walk_spec::Leaf1;

/// A word of a level: the place that is asked for, the place where it lies, and its value.
#[derive(Clone, Copy)]
struct Entry {
    level: i8,
    ipa: u64,
    pa: u64,
    value: u64,
}

/// Why a word is not had: stage 2 refuses its place, memory lacks it, or two rows differ.
#[derive(Clone, Copy)]
enum Lack {
    Refused,
    Lacking,
    Twice,
}

const REFUSED: Fault = Fault {
    stage: Stage::S2,
    level: 1,
    class: Class::AddressSize,
    s1ptw: true,
};

fn stop(lack: Lack) -> Stop
    ensures { HasTextStop result }
{
    match lack {
        Lack::Refused => Stop::Fault { fault: REFUSED },
        Lack::Lacking => Stop::Absent {
            stage: Stage::S2,
            level: 0,
            pa: 0x7_7000,
            s1ptw: true,
        },
        Lack::Twice => Stop::Conflict,
    }
}

/// These words alone, and how often one was asked for.
#[derive(Drop)]
struct Words<'a> {
    words: &'a [Entry],
    lack: Lack,
    asked: usize,
}

/// The word of a level at a place.
fn find(words: &[Entry], level: i8, ipa: u64) -> Option<Entry> {
    for word in words {
        if word.level == level && word.ipa == ipa {
            return Some(*word);
        }
    }
    None
}

fn item(word: &Entry) -> Item
    ensures { result.value ≡ word.now.value }
{
    Item {
        pa: word.pa,
        value: word.value,
        moment: 5,
        stage: Stage::S1,
        level: word.level,
        what: What::Word,
    }
}

impl<'a> Supply1 for Words<'a> {
    ghost gives = { λ _ _ _ _ _ _. Unit {0} };

    fn word_at(&mut self, level: i8, ipa: u64, trail: &mut Trail) -> Result<u64, Stop> {
        self.asked = self.asked.saturating_add(1);
        match find(self.words, level, ipa) {
            Some(word) => {
                trail.push(item(&word));
                Ok(word.value)
            }
            None => Err(stop(self.lack)),
        }
    }
}

/// The registers with stage 1 alone. The attributes of index 0 are Device-nGnRnE, those of index 1 write-back.
fn regs(tcr_el1: u64) -> Regs
    ensures { result ≡ record {
      sctlr_el1 = 1;
      tcr_el1 = tcr_el1;
      ttbr0_el1 = 0;
      ttbr1_el1 = 0;
      mair_el1 = 0xff00;
      hcr_el2 = 0;
      vtcr_el2 = 0;
      vttbr_el2 = 0;
    } }
{
    Regs {
        sctlr_el1: 1,
        tcr_el1,
        mair_el1: 0xff00,
        ..Regs::zero()
    }
}

/// An access at EL1.
fn access(va: u64, kind: Kind) -> Access
    ensures { result ≡ record { va = va; el = El1; kind = kind; pan = false } }
{
    Access {
        va,
        el: El::El1,
        kind,
        pan: false,
    }
}

/// The walk of 0x4020_1abc with 4 KB and 48 bits, from a table of level 2.
#[tactic(auto, unfolding(walk_spec::specs::BothStages::is_refused1, table_reads::specs::Numbers::sizes1))]
fn walk_4k(
    kind: Kind,
    tables: TableBits,
    supply: &mut Words,
    trail: &mut Trail,
) -> Result<Leaf1, Stop>
    requires { trail.old ≡ [] }
{
    let config = config(&regs(0x5_0000_0010));
    let from = From1 {
        base: 0x3000,
        level: 2,
        tables,
    };
    walk1::<12, Words>(&config, &access(0x4020_1abc, kind), &from, supply, trail)
}

/// The walk of 0xffff_9234_5678_9abc on the high side with 16 KB and 47 bits, from a table of level 2.
#[tactic(auto, unfolding(walk_spec::specs::BothStages::is_refused1, table_reads::specs::Numbers::sizes1))]
fn walk_16k(
    kind: Kind,
    tables: TableBits,
    supply: &mut Words,
    trail: &mut Trail,
) -> Result<Leaf1, Stop>
    requires { trail.old ≡ [] }
{
    let config = config(&regs(0x5_4011_0010));
    let from = From1 {
        base: 0x1_0000,
        level: 2,
        tables,
    };
    walk1::<14, Words>(
        &config,
        &access(0xffff_9234_5678_9abc, kind),
        &from,
        supply,
        trail,
    )
}

/// The walk of 0x8_0000_2003_1234 with 64 KB and 52 bits, from a table of level 1 above 48 bits.
#[tactic(auto, unfolding(walk_spec::specs::BothStages::is_refused1, table_reads::specs::Numbers::sizes1))]
fn walk_64k(
    kind: Kind,
    tables: TableBits,
    supply: &mut Words,
    trail: &mut Trail,
) -> Result<Leaf1, Stop>
    requires { trail.old ≡ [] }
{
    let config = config(&regs(0x6_0000_400c));
    let from = From1 {
        base: 0x1_0000_0001_0000,
        level: 1,
        tables,
    };
    walk1::<16, Words>(
        &config,
        &access(0x8_0000_2003_1234, kind),
        &from,
        supply,
        trail,
    )
}

const NONE: TableBits = TableBits {
    no_el0: false,
    read_only: false,
    pxn: false,
    uxn: false,
};

const READ_ONLY: TableBits = TableBits {
    no_el0: false,
    read_only: true,
    pxn: false,
    uxn: false,
};

const UXN: TableBits = TableBits {
    no_el0: false,
    read_only: false,
    pxn: false,
    uxn: true,
};

const SMALL2: Entry = Entry {
    level: 2,
    ipa: 0x3008,
    pa: 0x3008,
    value: 0x800_0000_0000_4003,
};

const SMALL3: Entry = Entry {
    level: 3,
    ipa: 0x4008,
    pa: 0x8_4008,
    value: 0x5443,
};

const RUN: Entry = Entry {
    level: 2,
    ipa: 0x1_1158,
    pa: 0x9_1158,
    value: 0x10_0000_9600_0f05,
};

const LEVEL1: Entry = Entry {
    level: 1,
    ipa: 0x1_0000_0001_1000,
    pa: 0x1_0000_0001_1000,
    value: 0x2_1003,
};

const LEVEL2: Entry = Entry {
    level: 2,
    ipa: 0x1_0000_0002_0008,
    pa: 0x1_0000_0002_0008,
    value: 0x3_0003,
};

const LEVEL3: Entry = Entry {
    level: 3,
    ipa: 0x3_0018,
    pa: 0x3_0018,
    value: 0x5_2403,
};

/// Where a walk ends: at a page of level 3, at a block or run of level 2, in a fault, or where a word is not had. A leaf has
/// its address, its class and its rights, which are R0, W0, X0, R1, W1 and X1 from bit 0 up, and a fault its level.
#[derive(Clone, Copy)]
enum End {
    Page(u64, u32, u8),
    Block(u64, u32, u8),
    Fault(i8, Class),
    Lack,
}

const WRITE_BACK: Cache = Cache::Wb {
    transient: false,
    read: true,
    write: true,
};

/// Blocks are write-back, Inner Shareable and not global.
const CACHED: MemType = MemType::Normal {
    outer: WRITE_BACK,
    inner: WRITE_BACK,
    tagged: false,
};

/// Pages are Device memory and global.
const DEVICE: MemType = MemType::Device {
    kind: Device::NGnRnE,
};

fn is_leaf(leaf: &Leaf1, out: u64, class: u32, level: i8, rights: u8) -> bool {
    leaf.out == out
        && leaf.class == class
        && leaf.level == level
        && leaf.perms == Perms::from_bits_retain(rights)
}

/// Whether a stop says that a word is not had, for this reason.
fn is_stop(found: Stop, lack: Lack) -> bool {
    match (found, lack) {
        (Stop::Fault { fault }, Lack::Refused) => fault == REFUSED,
        (
            Stop::Absent {
                stage: Stage::S2,
                level: 0,
                pa: 0x7_7000,
                s1ptw: true,
            },
            Lack::Lacking,
        ) => true,
        (Stop::Conflict, Lack::Twice) => true,
        _ => false,
    }
}

fn is_end(found: Result<Leaf1, Stop>, end: End, lack: Lack) -> bool {
    match (found, end) {
        (Ok(leaf), End::Page(out, class, rights)) => {
            is_leaf(&leaf, out, class, 3, rights)
                && leaf.mem == DEVICE
                && leaf.sh == Share::Nsh
                && leaf.global
        }
        (Ok(leaf), End::Block(out, class, rights)) => {
            is_leaf(&leaf, out, class, 2, rights)
                && leaf.mem == CACHED
                && leaf.sh == Share::Ish
                && !leaf.global
        }
        (Err(Stop::Fault { fault }), End::Fault(level, class)) => {
            fault
                == Fault {
                    stage: Stage::S1,
                    level,
                    class,
                    s1ptw: false,
                }
        }
        (Err(stop), End::Lack) => is_stop(stop, lack),
        _ => false,
    }
}

/// A walk under the bits of the tables above: the words that there are, what is answered for another, how many words are
/// read and how many are asked for, and where it ends.
struct Walk {
    tg: Tg,
    kind: Kind,
    above: TableBits,
    words: &'static [Entry],
    lack: Lack,
    read: usize,
    asked: usize,
    end: End,
}

static WALKS: [Walk; 11] = [
    // The bits of the table above and of the table on the way are joined.
    Walk {
        tg: Tg::K4,
        kind: Kind::Read,
        above: READ_ONLY,
        words: &[SMALL2, SMALL3],
        lack: Lack::Lacking,
        read: 2,
        asked: 2,
        end: End::Page(0x5abc, 12, 0b001_101),
    },
    Walk {
        tg: Tg::K4,
        kind: Kind::Write,
        above: READ_ONLY,
        words: &[SMALL2, SMALL3],
        lack: Lack::Lacking,
        read: 2,
        asked: 2,
        end: End::Fault(3, Class::Permission),
    },
    Walk {
        tg: Tg::K4,
        kind: Kind::Fetch,
        above: NONE,
        words: &[SMALL2, SMALL3],
        lack: Lack::Lacking,
        read: 2,
        asked: 2,
        end: End::Fault(3, Class::Permission),
    },
    Walk {
        tg: Tg::K4,
        kind: Kind::Write,
        above: NONE,
        words: &[SMALL2, SMALL3],
        lack: Lack::Lacking,
        read: 2,
        asked: 2,
        end: End::Page(0x5abc, 12, 0b011_111),
    },
    // The high side: a block stands in its run by the place where its word lies.
    Walk {
        tg: Tg::K16,
        kind: Kind::Read,
        above: UXN,
        words: &[RUN],
        lack: Lack::Lacking,
        read: 1,
        asked: 1,
        end: End::Block(0x9678_9abc, 30, 0b111_000),
    },
    Walk {
        tg: Tg::K16,
        kind: Kind::Fetch,
        above: NONE,
        words: &[Entry {
            pa: 0x9_1160,
            ..RUN
        }],
        lack: Lack::Lacking,
        read: 1,
        asked: 1,
        end: End::Block(0x9678_9abc, 25, 0b111_100),
    },
    // Three levels.
    Walk {
        tg: Tg::K64,
        kind: Kind::Write,
        above: NONE,
        words: &[LEVEL1, LEVEL2, LEVEL3],
        lack: Lack::Lacking,
        read: 3,
        asked: 3,
        end: End::Page(0x2_0000_0005_1234, 16, 0b111_100),
    },
    // A word that is not had ends the walk, and comes back as it was.
    Walk {
        tg: Tg::K64,
        kind: Kind::Read,
        above: NONE,
        words: &[LEVEL1],
        lack: Lack::Refused,
        read: 1,
        asked: 2,
        end: End::Lack,
    },
    Walk {
        tg: Tg::K64,
        kind: Kind::Read,
        above: NONE,
        words: &[LEVEL2, LEVEL3],
        lack: Lack::Lacking,
        read: 0,
        asked: 1,
        end: End::Lack,
    },
    Walk {
        tg: Tg::K64,
        kind: Kind::Read,
        above: NONE,
        words: &[LEVEL1, LEVEL2],
        lack: Lack::Twice,
        read: 2,
        asked: 3,
        end: End::Lack,
    },
    // Bit 0 of the word is clear: no word of the next level is asked for.
    Walk {
        tg: Tg::K64,
        kind: Kind::Read,
        above: NONE,
        words: &[
            Entry {
                value: 0x2_1002,
                ..LEVEL1
            },
            LEVEL2,
        ],
        lack: Lack::Lacking,
        read: 1,
        asked: 1,
        end: End::Fault(1, Class::Translation),
    },
];

#[test]
fn walks_from_a_table(rt: HostRuntime) {
    for walk in WALKS.as_slice() {
        let mut trail = Trail::none();
        let mut supply = Words {
            words: walk.words,
            lack: walk.lack,
            asked: 0,
        };
        let found = match walk.tg {
            Tg::K4 => walk_4k(walk.kind, walk.above, &mut supply, &mut trail),
            Tg::K16 => walk_16k(walk.kind, walk.above, &mut supply, &mut trail),
            Tg::K64 => walk_64k(walk.kind, walk.above, &mut supply, &mut trail),
        };
        assert!(rt; is_end(found, walk.end, walk.lack));
        assert!(rt; trail.items().len() == walk.read && supply.asked == walk.asked);
        for (read, given) in trail.items().iter().zip(walk.words) {
            assert!(rt; *read == item(given));
        }
    }
}
