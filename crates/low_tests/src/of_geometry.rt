ghost use Rattle.geometry.specs.Tables.{IsGranule};

use geometry::{
    block_allowed, case_table, class_at, entry_class, goes_to, index, leaf_class, place, run_class,
    start_level1, start_level2, suits2,
};

/// TxSZ, and the start level of stage 1 with 4, 16 and 64 KB.
const STARTS1: [(u32, Option<i8>, Option<i8>, Option<i8>); 21] = [
    (11, None, None, None),
    (12, None, None, Some(1)),
    (15, None, None, Some(1)),
    (16, Some(0), Some(0), Some(1)),
    (17, Some(0), Some(1), Some(1)),
    (21, Some(0), Some(1), Some(1)),
    (22, Some(0), Some(1), Some(2)),
    (24, Some(0), Some(1), Some(2)),
    (25, Some(1), Some(1), Some(2)),
    (27, Some(1), Some(1), Some(2)),
    (28, Some(1), Some(2), Some(2)),
    (33, Some(1), Some(2), Some(2)),
    (34, Some(2), Some(2), Some(2)),
    (35, Some(2), Some(2), Some(3)),
    (38, Some(2), Some(2), Some(3)),
    (39, Some(2), Some(3), Some(3)),
    (42, Some(2), Some(3), Some(3)),
    (43, Some(3), Some(3), Some(3)),
    (47, Some(3), Some(3), Some(3)),
    (48, Some(3), Some(3), None),
    (49, None, None, None),
];

#[test]
fn start_levels(rt: HostRuntime) {
    for &(txsz, four, sixteen, sixty_four) in STARTS1.as_slice() {
        let found = (
            start_level1::<12>(txsz),
            start_level1::<14>(txsz),
            start_level1::<16>(txsz),
        );
        assert!(rt; found == (four, sixteen, sixty_four));
    }
}

/// SL0, and the start level of stage 2 with 4, 16 and 64 KB.
const STARTS2: [(u32, Option<i8>, Option<i8>, Option<i8>); 4] = [
    (0, Some(2), Some(3), Some(3)),
    (1, Some(1), Some(2), Some(2)),
    (2, Some(0), Some(1), Some(1)),
    (3, Some(3), None, None),
];

/// Input sizes, and whether they suit a start at level 1, 2 and 2 with 4, 16 and 64 KB.
const SUITED: [(u32, bool, bool, bool); 9] = [
    (29, false, true, false),
    (30, false, true, true),
    (31, true, true, true),
    (40, true, true, true),
    (41, true, false, true),
    (43, true, false, true),
    (44, false, false, true),
    (46, false, false, true),
    (47, false, false, false),
];

#[test]
fn start_levels_of_stage_2(rt: HostRuntime) {
    for &(sl0, four, sixteen, sixty_four) in STARTS2.as_slice() {
        let found = (
            start_level2::<12>(sl0, 1),
            start_level2::<14>(sl0, 1),
            start_level2::<16>(sl0, 1),
        );
        assert!(rt; found == (four, sixteen, sixty_four));
    }
    for &(size, four, sixteen, sixty_four) in SUITED.as_slice() {
        let found = (
            suits2::<12>(1, size),
            suits2::<14>(2, size),
            suits2::<16>(2, size),
        );
        assert!(rt; found == (four, sixteen, sixty_four));
    }
}

/// The class of an entry, whether there are blocks, and the class of a run.
fn level<const G: u32>(left: u32) -> (u32, bool, Option<u32>)
    requires { IsGranule G }
{
    (
        case_table!(level left; entry_class::<G>()),
        case_table!(level left; block_allowed::<G>()),
        case_table!(level left; run_class::<G>()),
    )
}

#[test]
fn levels(rt: HostRuntime) {
    for (left, four, sixteen, sixty_four) in [
        (
            0,
            (12, false, Some(16)),
            (14, false, Some(21)),
            (16, false, Some(21)),
        ),
        (
            1,
            (21, true, Some(25)),
            (25, true, Some(30)),
            (29, true, Some(34)),
        ),
        (2, (30, true, Some(34)), (36, false, None), (42, true, None)),
        (3, (39, false, None), (47, false, None), (55, false, None)),
    ] {
        let found = (level::<12>(left), level::<14>(left), level::<16>(left));
        assert!(rt; found == (four, sixteen, sixty_four));
    }
}

#[test]
fn places_and_runs(rt: HostRuntime) {
    let address = 0x80_4060_5678;
    for (found, want) in [
        (index::<12, 3>(address, 48), 1),
        (index::<12, 1>(address, 30), 3),
        (index::<12, 2>(address, 40), 0x201),
        (index::<16, 1>(u64::MAX, 42), 0x1fff),
        (place::<12>(48, 3, 3, 0x1000, address), 0x1008),
        (place::<12>(48, 3, 0, 0x7000, address), 0x7028),
        (place::<12>(40, 2, 2, 0x4000, address), 0x5008),
        (goes_to(0x1_0000, 16, address), 0x1_5678),
        (goes_to(0x1_3000, 12, address), 0x1_3678),
    ] {
        assert!(rt; found == want);
    }
    for (found, want) in [
        (leaf_class::<12>(48, 0, 0x1_0000, true, 0x7000), 16),
        (leaf_class::<12>(48, 0, 0x1_3000, true, 0x7018), 16),
        (leaf_class::<12>(48, 0, 0x1_3000, true, 0x7010), 12),
        (leaf_class::<12>(48, 0, 0x1_3000, false, 0x7018), 12),
        (leaf_class::<12>(34, 2, 0x4_0000_0000, true, 0x7000), 34),
        (leaf_class::<12>(33, 2, 0x4_0000_0000, true, 0x7000), 30),
        (leaf_class::<12>(48, 3, 0, true, 0x7000), 39),
        (leaf_class::<16>(48, 0, 0x21_0000, true, 0x7008), 21),
        (class_at::<14>(2), 36),
    ] {
        assert!(rt; found == want);
    }
}
