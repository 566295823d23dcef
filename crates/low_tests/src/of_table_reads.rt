ghost use Rattle.std.specs.Prelude.{◌==◌, Some, None, if◌then◌else◌};

use fault_codes::{Class, Fault, Stage};
use sysregs::Tg;
use table_reads::{
    MOST_LEFT, Sizes, Supply, Walker, fault, is_sized, is_too_large, keep_base, left_below, level,
    place, read, start_base,
};
use trails::{Item, Stop, Trail, What};

/// A memory of one word, which stands at 0x1098.
#[derive(Drop)]
struct OneWord {
    value: u64,
}

impl Supply for OneWord {
    ghost memory = { λ s. Some (λ pa. if pa == 0x1098 then Some s.value else None) };

    ghost faults = { λ _. 0 };

    ghost keeps = { λ s t. Unit {0} };

    fn word(&mut self, pa: u64) -> Option<u64> {
        if pa == 0x1098 { Some(self.value) } else { None }
    }

    ghost keeps_here = { λ s. tt };

    ghost keeps_then = { λ a b c h k. tt };
}

/// Stage 2 for the place of a stage 1 descriptor, at moment 7.
fn walker() -> Walker {
    Walker {
        moment: 7,
        stage: Stage::S2,
        s1ptw: true,
    }
}

/// The base of a table, and a word of it.
const READ: [Item; 2] = [
    Item {
        pa: 0x1080,
        value: 0x1080,
        moment: 7,
        stage: Stage::S2,
        level: 3,
        what: What::Base,
    },
    Item {
        pa: 0x1098,
        value: 0x5403,
        moment: 7,
        stage: Stage::S2,
        level: 3,
        what: What::Word,
    },
];

#[test]
fn a_base_and_its_words(rt: HostRuntime) {
    let sizes = Sizes {
        granule: 12,
        input: 16,
        output: 32,
        start: 0,
    };
    let base = start_base(&sizes, 0x10c0);
    assert!(rt; base == 0x1080);
    assert!(rt; is_too_large(&sizes, 0x1_0000_0000) && !is_too_large(&sizes, 0xffff_ffff));
    let mut trail = Trail::none();
    keep_base(&walker(), &sizes, base, &mut trail);
    let place = place::<12>(&sizes, 0, base, 0x3abc);
    let mut supply = OneWord { value: 0x5403 };
    let found = read(&walker(), 3, place, &mut supply, &mut trail);
    assert!(rt; matches!(found, Ok(0x5403)));
    let lacking = read(&walker(), 1, 0x1090, &mut supply, &mut trail);
    assert!(rt;
        matches!(
            lacking,
            Err(Stop::Absent {
                stage: Stage::S2,
                level: 1,
                pa: 0x1090,
                s1ptw: true
            })
        )
    );
    assert!(rt; trail.items() == READ.as_slice());
}

#[test]
fn levels_and_faults(rt: HostRuntime) {
    assert!(rt; is_sized(Tg::K64, 12) && !is_sized(Tg::K4, 15));
    assert!(rt; (level(0), level(MOST_LEFT)) == (3, 0));
    assert!(rt; (left_below(3), left_below(0)) == (0, MOST_LEFT));
    let expected = Fault {
        stage: Stage::S2,
        level: 1,
        class: Class::AccessFlag,
        s1ptw: true,
    };
    assert!(rt; fault(&walker(), Class::AccessFlag, 2) == expected);
}
