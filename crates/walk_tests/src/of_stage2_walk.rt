ghost use Rattle.std.specs.Prelude.{◌≡◌, ◌==◌, [], Some, option_map};
ghost use Rattle.std.specs.List.{find};

use attributes::{Cache, Device, MemType, Share};
use bitflags::Flags;
use fault_codes::{Class, Fault, Stage};
use permissions::Perms;
use stage2_walk::{From2, Replay2, replay2, walk2};
use sysregs::fields::config;
use sysregs::{Regs, Tg};
use table_reads::Supply;
use trails::{Item, Stop, Trail, What};
use walk_spec::Leaf2;

/// The first word of a place.
fn first(words: &[(u64, u64)], pa: u64) -> Option<u64>
    ensures { result ≡ option_map (λ w. w.1) (find (λ w. w.0 == pa) words.now) }
{
    for (place, word) in words {
        if *place == pa {
            return Some(*word);
        }
    }
    None
}

/// A memory of these words alone, each behind its place, and how often it was asked for one.
#[derive(Drop)]
pub struct Words<'a> {
    words: &'a [(u64, u64)],
    pub asked: usize,
}

impl<'a> Words<'a> {
    pub fn of(words: &'a [(u64, u64)]) -> Words<'a> {
        Words { words, asked: 0 }
    }
}

impl<'a> Supply for Words<'a> {
    ghost memory = { λ s. Some (λ pa. option_map (λ w. w.1) (find (λ w. w.0 == pa) s.words.now)) };

    ghost faults = { λ _. 0 };

    ghost keeps = { λ _ _. Unit {0} };

    fn word(&mut self, pa: u64) -> Option<u64> {
        self.asked = self.asked.saturating_add(1);
        first(self.words, pa)
    }

    ghost keeps_here = { λ s. tt };

    ghost keeps_then = { λ a b c h k. tt };
}

/// The registers with stage 2 alone.
fn regs(vtcr_el2: u64) -> Regs
    ensures { result ≡ record { sctlr_el1 = 0; tcr_el1 = 0; ttbr0_el1 = 0; ttbr1_el1 = 0; mair_el1 = 0; hcr_el2 = 0; vtcr_el2 = vtcr_el2; vttbr_el2 = 0 } }
{
    Regs {
        vtcr_el2,
        ..Regs::zero()
    }
}

/// The walk of IPA 0x80_4020_1abc with 4 KB and 40 bits, from two tables of level 1 or from one of level 2.
#[tactic(auto, unfolding(walk_spec::specs::Stage2::is_refused2, table_reads::specs::Numbers::sizes2))]
fn walk_4k(start: bool, ptw: bool, supply: &mut Words, trail: &mut Trail) -> Result<Leaf2, Stop>
    requires { trail.old ≡ [] }
{
    let config = config(&regs(0x2_0058));
    let from = if start {
        From2 {
            base: 0x4000,
            level: 1,
        }
    } else {
        From2 {
            base: 0x3000,
            level: 2,
        }
    };
    walk2::<12, Words>(&config, &from, 0x80_4020_1abc, ptw, 7, supply, trail)
}

/// The walk of IPA 0x91_2345_6abc with 16 KB and 40 bits, from sixteen tables of level 2 or from one of level 3.
#[tactic(auto, unfolding(walk_spec::specs::Stage2::is_refused2, table_reads::specs::Numbers::sizes2))]
fn walk_16k(start: bool, ptw: bool, supply: &mut Words, trail: &mut Trail) -> Result<Leaf2, Stop>
    requires { trail.old ≡ [] }
{
    let config = config(&regs(0x5_8058));
    let from = if start {
        From2 {
            base: 0x4_0000,
            level: 2,
        }
    } else {
        From2 {
            base: 0x8000,
            level: 3,
        }
    };
    walk2::<14, Words>(&config, &from, 0x91_2345_6abc, ptw, 7, supply, trail)
}

/// The walk of IPA 0x2abc_dead_beef with 64 KB and 46 bits, from sixteen tables of level 2 or from one of level 3.
#[tactic(auto, unfolding(walk_spec::specs::Stage2::is_refused2, table_reads::specs::Numbers::sizes2))]
fn walk_64k(start: bool, ptw: bool, supply: &mut Words, trail: &mut Trail) -> Result<Leaf2, Stop>
    requires { trail.old ≡ [] }
{
    let config = config(&regs(0x6_4052));
    let from = if start {
        From2 {
            base: 0x10_0000,
            level: 2,
        }
    } else {
        From2 {
            base: 0x2_0000,
            level: 3,
        }
    };
    walk2::<16, Words>(&config, &from, 0x2abc_dead_beef, ptw, 7, supply, trail)
}

/// Where a walk ends: at a page or run of level 3, at a block or run of level 2, in a fault, or at a word of level 3 that is
/// lacking. A leaf has its address and its class, and a fault its level.
#[derive(Clone, Copy)]
enum End {
    Page(u64, u32),
    Block(u64, u32),
    Fault(i8, Class),
    Lacking(u64),
}

const WRITE_BACK: Cache = Cache::Wb {
    transient: false,
    read: false,
    write: false,
};

/// Pages are write-back and Inner Shareable, with all rights.
const CACHED: MemType = MemType::Normal {
    outer: WRITE_BACK,
    inner: WRITE_BACK,
    tagged: false,
};

/// Blocks are Device memory that may be read alone.
const DEVICE: MemType = MemType::Device {
    kind: Device::NGnRE,
};

/// The rights are R0, W0, X0, R1, W1 and X1 from bit 0 up.
fn is_leaf(leaf: &Leaf2, pa: u64, class: u32, level: i8, rights: u8) -> bool {
    leaf.pa == pa
        && leaf.class == class
        && leaf.level == level
        && leaf.perms == Perms::from_bits_retain(rights)
}

fn is_end(found: Result<Leaf2, Stop>, end: End, ptw: bool) -> bool {
    match (found, end) {
        (Ok(leaf), End::Page(pa, class)) => {
            is_leaf(&leaf, pa, class, 3, 0b111_111) && leaf.mem == CACHED && leaf.sh == Share::Ish
        }
        (Ok(leaf), End::Block(pa, class)) => {
            is_leaf(&leaf, pa, class, 2, 0b001_001) && leaf.mem == DEVICE && leaf.sh == Share::Nsh
        }
        (Err(Stop::Fault { fault }), End::Fault(level, class)) => {
            fault
                == Fault {
                    stage: Stage::S2,
                    level,
                    class,
                    s1ptw: ptw,
                }
        }
        (
            Err(
                Stop::Absent {
                    stage: Stage::S2,
                    level: 3,
                    pa,
                    s1ptw,
                },
            ),
            End::Lacking(place),
        ) => pa == place && s1ptw == ptw,
        _ => false,
    }
}

/// A walk from a start table or from the table below it: the words of memory, how many of them are read, and where it ends.
struct Walk {
    tg: Tg,
    start: bool,
    ptw: bool,
    words: &'static [(u64, u64)],
    read: usize,
    end: End,
}

static WALKS: [Walk; 9] = [
    // A table of the tenth of sixteen, and a page that stands in its run.
    Walk {
        tg: Tg::K16,
        start: true,
        ptw: false,
        words: &[(0x6_4488, 0x8003), (0xa8a8, 0x10_0000_0065_47ff)],
        read: 2,
        end: End::Page(0x65_6abc, 21),
    },
    // The page alone, from its own table.
    Walk {
        tg: Tg::K16,
        start: false,
        ptw: true,
        words: &[(0xa8a8, 0x10_0000_0065_47ff), (0xa8b0, 0x10_0000_0065_87ff)],
        read: 1,
        end: End::Page(0x65_6abc, 21),
    },
    // A page that doesn't stand in its run.
    Walk {
        tg: Tg::K16,
        start: false,
        ptw: false,
        words: &[(0xa8a8, 0x10_0000_0065_87ff), (0xa8b0, 0)],
        read: 1,
        end: End::Page(0x65_aabc, 14),
    },
    // A block of the eleventh of sixteen tables that stands in its run.
    Walk {
        tg: Tg::K64,
        start: true,
        ptw: false,
        words: &[(0x1a_af30, 0x50_000c_c000_0445), (0x2_f568, 0)],
        read: 1,
        end: End::Block(0xc_dead_beef, 34),
    },
    // The access flag is clear.
    Walk {
        tg: Tg::K64,
        start: false,
        ptw: true,
        words: &[(0x2_f568, 0x3_00ff), (0x2_f570, 0)],
        read: 1,
        end: End::Fault(3, Class::AccessFlag),
    },
    // Bit 0 of the word of a table is clear.
    Walk {
        tg: Tg::K64,
        start: true,
        ptw: false,
        words: &[(0x1a_af30, 0x2_0002), (0x2_f568, 0x3_07ff)],
        read: 1,
        end: End::Fault(2, Class::Translation),
    },
    // A table of the second of two beyond 40 bits of output.
    Walk {
        tg: Tg::K4,
        start: true,
        ptw: true,
        words: &[(0x5008, 0x100_0000_0003), (0x100_0000_0008, 0x7ff)],
        read: 1,
        end: End::Fault(1, Class::AddressSize),
    },
    // A word of the last level is lacking.
    Walk {
        tg: Tg::K4,
        start: false,
        ptw: true,
        words: &[(0x3008, 0x7003), (0x7010, 0x57ff)],
        read: 1,
        end: End::Lacking(0x7008),
    },
    // A block that doesn't stand in its run ends the walk, and no word of level 3 is read.
    Walk {
        tg: Tg::K4,
        start: false,
        ptw: false,
        words: &[(0x3008, 0x50_0000_0060_0445), (0x7008, 0)],
        read: 1,
        end: End::Block(0x60_1abc, 21),
    },
];

/// A word of stage 2 that was read at moment 7.
fn word(level: i8, pa: u64, value: u64) -> Item {
    Item {
        pa,
        value,
        moment: 7,
        stage: Stage::S2,
        level,
        what: What::Word,
    }
}

#[test]
fn walks_from_a_table(rt: HostRuntime) {
    for walk in WALKS.as_slice() {
        let mut trail = Trail::none();
        let mut supply = Words::of(walk.words);
        let (found, start) = match walk.tg {
            Tg::K4 => (walk_4k(walk.start, walk.ptw, &mut supply, &mut trail), 1),
            Tg::K16 => (walk_16k(walk.start, walk.ptw, &mut supply, &mut trail), 2),
            Tg::K64 => (walk_64k(walk.start, walk.ptw, &mut supply, &mut trail), 2),
        };
        assert!(rt; is_end(found, walk.end, walk.ptw));
        let lacking = matches!(walk.end, End::Lacking(_)) as usize;
        assert!(rt; trail.items().len() == walk.read && supply.asked == walk.read + lacking);
        let first = if walk.start { start } else { start + 1 };
        for (item, ((pa, value), level)) in trail
            .items()
            .iter()
            .zip(walk.words.iter().zip(first..))
        {
            assert!(rt; *item == word(level, *pa, *value));
        }
    }
}

/// The block of the second of two tables.
const CHAIN: [Item; 2] = [
    Item {
        pa: 0x8000,
        value: 0x8000,
        moment: 0,
        stage: Stage::S2,
        level: 1,
        what: What::Base,
    },
    Item {
        pa: 0x9000,
        value: 0x4000_04fd,
        moment: 0,
        stage: Stage::S2,
        level: 1,
        what: What::Word,
    },
];

#[test]
fn replays_chains(rt: HostRuntime) {
    let config = config(&regs(0x2_0058));
    let whole = replay2(&config, 0x80_0000_0abc, CHAIN.as_slice());
    assert!(rt; matches!(whole, Replay2::Ended { leaf } if leaf.pa == 0x4000_0abc));
    let base = replay2(&config, 0x80_0000_0abc, &CHAIN[..1]);
    assert!(rt; matches!(base, Replay2::More { from } if from.base == 0x8000 && from.level == 1));
    assert!(rt;
        matches!(
            replay2(&config, 0x80_0000_0abc, &CHAIN[1..]),
            Replay2::Other
        )
    );
}
