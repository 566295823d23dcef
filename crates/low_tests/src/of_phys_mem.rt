use phys_mem::{Phys, PhysError};
use std::test::Fail;

/// Sixteen ranges, the most there may be.
const MOST: [(u64, u64); 16] = [
    (0x00, 8),
    (0x10, 8),
    (0x20, 8),
    (0x30, 8),
    (0x40, 8),
    (0x50, 8),
    (0x60, 8),
    (0x70, 8),
    (0x80, 8),
    (0x90, 8),
    (0xa0, 8),
    (0xb0, 8),
    (0xc0, 8),
    (0xd0, 8),
    (0xe0, 8),
    (0xf0, 8),
];

#[test]
fn refuses_what_is_no_memory(rt: HostRuntime) {
    let mut more = [(0u64, 8u64); 17];
    for place in 0..17usize {
        more[place].0 = 0x10 * place as u64;
    }
    let bad = |place| Some(PhysError::BadRange { place });
    let overlap = |first, second| Some(PhysError::Overlap { first, second });
    let rows: [(&[(u64, u64)], Option<PhysError>); 20] = [
        (&[], None),
        (&[(0, 0x1000)], None),
        (&[(4, 8)], bad(0)),
        (&[(0, 8), (8, 12)], bad(1)),
        (&[(0, 8), (16, 0)], bad(1)),
        (&[(0xf_ffff_ffff_fff8, 8)], None),
        (&[(0xf_ffff_ffff_fff8, 16)], bad(0)),
        (&[(0xffff_ffff_ffff_fff8, 8)], bad(0)),
        (&[(8, 0xffff_ffff_ffff_fff8)], bad(0)),
        (&[(0, 16), (8, 16)], overlap(0, 1)),
        (&[(8, 16), (0, 16)], overlap(0, 1)),
        (&[(0, 32), (8, 8)], overlap(0, 1)),
        (&[(0, 8), (8, 8), (0, 16)], overlap(0, 2)),
        (&[(0, 8), (16, 16), (16, 8), (0, 8)], overlap(1, 2)),
        (&[(0, 16), (8, 16), (4, 8)], bad(2)),
        (&[(0, 0x400_0000)], None),
        (&[(0, 0x400_0008)], Some(PhysError::TooLarge)),
        (
            &[(0, 0x400_0000), (0x400_0000, 8)],
            Some(PhysError::TooLarge),
        ),
        (&MOST, None),
        (&more, Some(PhysError::TooLarge)),
    ];
    for (ranges, want) in rows {
        assert!(rt; Phys::of(rt.alloc(), ranges).err() == want);
    }
}

#[test]
fn loads_words_of_one_range(rt: HostRuntime) -> Result<(), Fail> {
    let phys = Phys::of(
        rt.alloc(),
        &[(0x1000, 8), (0, 0x1000), (0xf_ffff_ffff_fff8, 8)],
    )?;
    for (pa, want) in [
        (0, Some(0)),
        (0xff8, Some(0)),
        (0x1000, Some(0)),
        (0x1008, None),
        (4, None),
        (0xffc, None),
        (0xf_ffff_ffff_fff0, None),
        (0xf_ffff_ffff_fff8, Some(0)),
        (0x10_0000_0000_0000, None),
        (0xffff_ffff_ffff_fff8, None),
    ] {
        assert!(rt; phys.load(pa) == want);
    }
    Ok(())
}

#[test]
fn stores_words(rt: HostRuntime) -> Result<(), Fail> {
    let mut phys = Phys::of(rt.alloc(), &[(0x2000, 0x10), (0, 0x1000), (0x1000, 8)])?;
    for (pa, value, there) in [
        (0xff8, 1, true),
        (0x1000, 2, true),
        (0x2008, 3, true),
        (0x2000, 4, true),
        (0xff8, u64::MAX, true),
        (0xffc, 5, false),
        (0x1008, 6, false),
        (0x2010, 7, false),
    ] {
        assert!(rt; phys.store(pa, value) == there);
    }
    for (pa, want) in [
        (0, Some(0)),
        (0xff0, Some(0)),
        (0xff8, Some(u64::MAX)),
        (0x1000, Some(2)),
        (0x1008, None),
        (0x2000, Some(4)),
        (0x2008, Some(3)),
    ] {
        assert!(rt; phys.load(pa) == want);
    }
    Ok(())
}

/// 64 MiB: a store changes one word of its page, and no word of the other pages.
#[test]
fn stores_into_one_page_of_many(rt: HostRuntime) -> Result<(), Fail> {
    let mut phys = Phys::of(rt.alloc(), &[(0x8000_0000, 0x400_0000)])?;
    assert!(rt; phys.store(0x8000_1008, 5));
    for (pa, want) in [
        (0x8000_0000, Some(0)),
        (0x8000_0008, Some(0)),
        (0x8000_0ff8, Some(0)),
        (0x8000_1000, Some(0)),
        (0x8000_1008, Some(5)),
        (0x8000_1010, Some(0)),
        (0x8000_2008, Some(0)),
        (0x83ff_fff8, Some(0)),
        (0x8400_0000, None),
    ] {
        assert!(rt; phys.load(pa) == want);
    }
    assert!(rt; phys.store(0x83ff_fff8, 6));
    assert!(rt; phys.load(0x83ff_fff8) == Some(6) && phys.load(0x8000_1008) == Some(5));
    Ok(())
}
