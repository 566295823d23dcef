//! Walks of both stages, few of each kind: `walk_spec` computes many more from the definitions.
ghost use Rattle.std.specs.Prelude.{◌≡◌, true};
ghost use Rattle.sysregs.specs.Refused.{AreAccepted};

use crate::of_stage2_walk::Words;
use attributes::{Cache, Device, MemType, Share};
use bitflags::Flags;
use fault_codes::{Class, Fault, Stage};
use permissions::{El, Kind, Perms};
use sysregs::fields::{check_reg, config};
use sysregs::{Reg, Regs};
use trails::{Access, Item, MOST_ITEMS, Outcome, Trail, What};
use translate::replay::replay;
use translate::{InForce, Replay, translate, translate_at};

/// An item: the level and place of a base, or the level, place and value of a word.
#[derive(Clone, Copy)]
enum Given {
    S1Base(i8, u64),
    S1Word(i8, u64, u64),
    S2Base(i8, u64),
    S2Word(i8, u64, u64),
}

use Given::{S1Base, S1Word, S2Base, S2Word};

/// How an access ends: where it is mapped to, with the rights R0, W0, X0, R1, W1 and X1 from bit 0 up; a fault with its
/// level; or the level and place of a word that is lacking. The last field tells whether stage 2 was asked for the place of a
/// stage 1 descriptor.
#[derive(Clone, Copy)]
enum End {
    Mapped(u64, u8, MemType, Share),
    Fault(Stage, i8, Class, bool),
    Absent(Stage, i8, u64, bool),
}

struct Case {
    regs: Regs,
    words: &'static [(u64, u64)],
    access: Access,
    items: &'static [Given],
    end: End,
}

const ZERO: Regs = Regs {
    sctlr_el1: 0,
    tcr_el1: 0,
    ttbr0_el1: 0,
    ttbr1_el1: 0,
    mair_el1: 0,
    hcr_el2: 0,
    vtcr_el2: 0,
    vttbr_el2: 0,
};

/// Both sides with 4 KB and 48 bits.
const USER: Regs = Regs {
    sctlr_el1: 0x1005,
    tcr_el1: 0x35_b550_3510,
    ttbr0_el1: 0x1000,
    ttbr1_el1: 0x1234_0000_0000_1000,
    mair_el1: 0x4_0044_ffff,
    ..ZERO
};

/// One table of 4 KB pages below a stage 2 of one table.
const NESTED: Regs = Regs {
    sctlr_el1: 1,
    tcr_el1: 0x5_0000_002b,
    ttbr0_el1: 0x1000,
    hcr_el2: 1,
    vtcr_el2: 0x5_00eb,
    vttbr_el2: 0x8000,
    ..ZERO
};

/// A read at EL1.
const READ: Access = Access {
    va: 0x1abc,
    el: El::El1,
    kind: Kind::Read,
    pan: false,
};

const USER_WORDS: [(u64, u64); 4] = [
    (0x1000, 0x2003),
    (0x2008, 0x3003),
    (0x3008, 0x4003),
    (0x4008, 0x60_0000_0000_5f43),
];

const USER_ITEMS: [Given; 5] = [
    S1Base(0, 0x1000),
    S1Word(0, 0x1000, 0x2003),
    S1Word(1, 0x2008, 0x3003),
    S1Word(2, 0x3008, 0x4003),
    S1Word(3, 0x4008, 0x60_0000_0000_5f43),
];

const WRITE_BACK: Cache = Cache::Wb {
    transient: false,
    read: true,
    write: true,
};

const READ_THROUGH: Cache = Cache::Wt {
    transient: false,
    read: true,
    write: false,
};

const CACHED: MemType = MemType::Normal {
    outer: WRITE_BACK,
    inner: WRITE_BACK,
    tagged: false,
};

/// Write-back memory whose inner half stage 2 weakens.
const WEAKENED: MemType = MemType::Normal {
    outer: WRITE_BACK,
    inner: Cache::Wt {
        transient: false,
        read: true,
        write: true,
    },
    tagged: false,
};

/// What a fetch comes from while stage 1 is off and SCTLR_EL1.I is 1.
const FETCHED: MemType = MemType::Normal {
    outer: READ_THROUGH,
    inner: READ_THROUGH,
    tagged: false,
};

const DEVICE: MemType = MemType::Device {
    kind: Device::NGnRnE,
};

static CASES: [Case; 12] = [
    // A tagged user address, stage 1 with 4 KB.
    Case {
        regs: USER,
        words: &USER_WORDS,
        access: Access {
            va: 0xb400_0000_4020_1abc,
            el: El::El0,
            ..READ
        },
        items: &USER_ITEMS,
        end: End::Mapped(0x5abc, 0b011_011, CACHED, Share::Ish),
    },
    // The same page from EL1 under PAN.
    Case {
        regs: USER,
        words: &USER_WORDS,
        access: Access {
            va: 0x4020_1abc,
            pan: true,
            ..READ
        },
        items: &USER_ITEMS,
        end: End::Fault(Stage::S1, 3, Class::Permission, false),
    },
    // An address below the high side.
    Case {
        regs: USER,
        words: &USER_WORDS,
        access: Access {
            va: 0xfffe_0000_4020_1abc,
            ..READ
        },
        items: &[],
        end: End::Fault(Stage::S1, 0, Class::Translation, false),
    },
    // Stage 1 with 64 KB, 52 bits and a base above 48 bits.
    Case {
        regs: Regs {
            sctlr_el1: 1,
            tcr_el1: 0x6_0000_400c,
            ttbr0_el1: 0x1_0004,
            ..ZERO
        },
        words: &[
            (0x1_0000_0001_1000, 0x2_1003),
            (0x1_0000_0002_0008, 0x3_0003),
            (0x3_0018, 0x5_2403),
        ],
        access: Access {
            va: 0x8_0000_2003_1234,
            ..READ
        },
        items: &[
            S1Base(1, 0x1_0000_0001_0000),
            S1Word(1, 0x1_0000_0001_1000, 0x2_1003),
            S1Word(2, 0x1_0000_0002_0008, 0x3_0003),
            S1Word(3, 0x3_0018, 0x5_2403),
        ],
        end: End::Mapped(0x2_0000_0005_1234, 0b111_100, DEVICE, Share::Osh),
    },
    // Blocks of 32 MB at both stages with 16 KB, WXN at EL1, and a tag that stage 2's inner half takes away.
    Case {
        regs: Regs {
            sctlr_el1: 0x8_0001,
            tcr_el1: 0x5_0000_801c,
            ttbr0_el1: 0x4000,
            mair_el1: 0xf0_0000,
            hcr_el2: 1,
            vtcr_el2: 0x5_809b,
            vttbr_el2: 0x8000,
            ..ZERO
        },
        words: &[
            (0x4008, 0x10_0010_0400_0709),
            (0x8000, 0xf003),
            (0x8008, 0x1_0003),
            (0xc000, 0x4fd),
            (0x1_0010, 0x800_04f9),
        ],
        access: Access {
            va: 0x200_1abc,
            kind: Kind::Write,
            ..READ
        },
        items: &[
            S1Base(2, 0x4000),
            S2Base(1, 0x8000),
            S2Word(1, 0x8000, 0xf003),
            S2Word(2, 0xc000, 0x4fd),
            S1Word(2, 0x4008, 0x10_0010_0400_0709),
            S2Base(1, 0x8000),
            S2Word(1, 0x8008, 0x1_0003),
            S2Word(2, 0x1_0010, 0x800_04f9),
        ],
        end: End::Mapped(0x800_1abc, 0b011_100, WEAKENED, Share::Ish),
    },
    // Stage 2 alone, with two tables one after the other.
    Case {
        regs: Regs {
            hcr_el2: 1,
            vtcr_el2: 0x2_0058,
            vttbr_el2: 0x7_0000_0000_8000,
            ..ZERO
        },
        words: &[(0x9000, 0x4000_04fd)],
        access: Access {
            va: 0x80_0000_0abc,
            ..READ
        },
        items: &[S2Base(1, 0x8000), S2Word(1, 0x9000, 0x4000_04fd)],
        end: End::Mapped(0x4000_0abc, 0b111_111, DEVICE, Share::Osh),
    },
    // A descriptor whose place stage 2 maps without its access flag.
    Case {
        regs: NESTED,
        words: &[(0x8008, 0x2_10ff)],
        access: READ,
        items: &[
            S1Base(3, 0x1000),
            S2Base(3, 0x8000),
            S2Word(3, 0x8008, 0x2_10ff),
        ],
        end: End::Fault(Stage::S2, 3, Class::AccessFlag, true),
    },
    // An output that stage 2 doesn't map.
    Case {
        regs: NESTED,
        words: &[(0x8008, 0x2_14ff), (0x8028, 0), (0x2_1008, 0x5403)],
        access: READ,
        items: &[
            S1Base(3, 0x1000),
            S2Base(3, 0x8000),
            S2Word(3, 0x8008, 0x2_14ff),
            S1Word(3, 0x2_1008, 0x5403),
            S2Base(3, 0x8000),
            S2Word(3, 0x8028, 0),
        ],
        end: End::Fault(Stage::S2, 3, Class::Translation, false),
    },
    // A stage 1 word that memory lacks is named by its physical place.
    Case {
        regs: NESTED,
        words: &[(0x1008, 0x5403), (0x8008, 0x2_14ff)],
        access: READ,
        items: &[
            S1Base(3, 0x1000),
            S2Base(3, 0x8000),
            S2Word(3, 0x8008, 0x2_14ff),
        ],
        end: End::Absent(Stage::S1, 3, 0x2_1008, false),
    },
    // A stage 2 word that memory lacks, for the place of a descriptor.
    Case {
        regs: NESTED,
        words: &[(0x1008, 0x5403)],
        access: READ,
        items: &[S1Base(3, 0x1000), S2Base(3, 0x8000)],
        end: End::Absent(Stage::S2, 3, 0x8008, true),
    },
    // Both stages off, a fetch under I.
    Case {
        regs: Regs {
            sctlr_el1: 0x1000,
            ..ZERO
        },
        words: &[],
        access: Access {
            va: 0x1234,
            kind: Kind::Fetch,
            ..READ
        },
        items: &[],
        end: End::Mapped(0x1234, 0b111_111, FETCHED, Share::Osh),
    },
    // Both stages off, and 52 bits exceeded.
    Case {
        regs: ZERO,
        words: &[],
        access: Access {
            va: 0x10_0000_0000_1abc,
            ..READ
        },
        items: &[],
        end: End::Fault(Stage::S1, 0, Class::AddressSize, false),
    },
];

fn item(stage: Stage, what: What, level: i8, pa: u64, value: u64, moment: u32) -> Item {
    Item {
        pa,
        value,
        moment,
        stage,
        level,
        what,
    }
}

impl Given {
    fn item(self, moment: u32) -> Item {
        match self {
            S1Base(level, pa) => item(Stage::S1, What::Base, level, pa, pa, moment),
            S1Word(level, pa, value) => item(Stage::S1, What::Word, level, pa, value, moment),
            S2Base(level, pa) => item(Stage::S2, What::Base, level, pa, pa, moment),
            S2Word(level, pa, value) => item(Stage::S2, What::Word, level, pa, value, moment),
        }
    }
}

impl End {
    fn outcome(self) -> Outcome {
        match self {
            End::Mapped(pa, rights, mem, sh) => Outcome::Mapped {
                pa,
                perms: Perms::from_bits_retain(rights),
                mem,
                sh,
            },
            End::Fault(stage, level, class, s1ptw) => Outcome::Faulted {
                fault: Fault {
                    stage,
                    level,
                    class,
                    s1ptw,
                },
            },
            End::Absent(stage, level, pa, s1ptw) => Outcome::Absent {
                stage,
                level,
                pa,
                s1ptw,
            },
        }
    }
}

/// Whether no register sets a refused field.
fn are_accepted(regs: &Regs) -> bool
    ensures { result ≡ true → AreAccepted regs.now }
{
    check_reg(Reg::SctlrEl1, regs.sctlr_el1).is_ok()
        && check_reg(Reg::TcrEl1, regs.tcr_el1).is_ok()
        && check_reg(Reg::HcrEl2, regs.hcr_el2).is_ok()
        && check_reg(Reg::VtcrEl2, regs.vtcr_el2).is_ok()
}

/// Whether a walk came to the items and the end of a case.
fn is_wanted(case: &Case, moment: u32, found: &[Item], outcome: Outcome) -> bool {
    for (item, given) in found.iter().zip(case.items) {
        if *item != given.item(moment) {
            return false;
        }
    }
    found.len() == case.items.len() && outcome == case.end.outcome()
}

#[test]
fn walks_at_moment_0(rt: HostRuntime) {
    for case in CASES.as_slice() {
        assert!(rt; are_accepted(&case.regs));
        let mut supply = Words::of(case.words);
        let (outcome, trail) = translate(&case.regs, &case.access, &mut supply);
        assert!(rt; is_wanted(case, 0, trail.items(), outcome));
        let read = trail
            .items()
            .iter()
            .filter(|i| i.what == What::Word)
            .count();
        let lacking = matches!(outcome, Outcome::Absent { .. }) as usize;
        assert!(rt; supply.asked == read + lacking);
    }
}

#[test]
fn walks_later(rt: HostRuntime) {
    for case in CASES.as_slice() {
        assert!(rt; are_accepted(&case.regs));
        let mut supply = Words::of(case.words);
        let mut trail = Trail::none();
        let force = InForce::of(case.regs);
        let outcome = translate_at(&force, &case.access, 7, &mut supply, &mut trail);
        assert!(rt; is_wanted(case, 7, trail.items(), outcome));
    }
}

/// The items of a case, at most so many.
fn trail_of(case: &Case, most: usize) -> Trail {
    let mut trail = Trail::none();
    for given in case.items.iter().take(most) {
        if trail.items().len() < MOST_ITEMS {
            trail.push(given.item(0));
        }
    }
    trail
}

#[test]
fn replays_trails(rt: HostRuntime) {
    for case in CASES.as_slice() {
        let config = config(&case.regs);
        let trail = trail_of(case, MOST_ITEMS);
        let outcome = case.end.outcome();
        let ended = match replay(&config, &case.access, &trail) {
            Replay::Ended {
                len,
                outcome: found,
            } => { len == case.items.len() && found == outcome }
            Replay::More { .. } | Replay::Other => false,
        };
        assert!(rt; ended != matches!(outcome, Outcome::Absent { .. }));
        if case.items.len() > 1 {
            let base = replay(&config, &case.access, &trail_of(case, 1));
            assert!(rt; matches!(base, Replay::More { .. }) == config.m);
        }
    }
}

#[test]
fn refuses_a_word_without_its_base(rt: HostRuntime) {
    let mut trail = Trail::none();
    trail.push(S1Word(0, 0x1000, 0x2003).item(0));
    assert!(rt; matches!(replay(&config(&USER), &READ, &trail), Replay::Other));
}
