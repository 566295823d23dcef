use bitwords::{Addr, align_down, field, flag, power};

#[test]
fn fields_of_words(rt: HostRuntime) {
    let word = 0x8123_4567_89ab_cdef;
    for (found, want) in [
        (field::<63, 0>(word), word),
        (field::<63, 48>(word), 0x8123),
        (field::<47, 12>(word), 0x4_5678_9abc),
        (field::<4, 2>(word), 3),
        (field::<63, 63>(word), 1),
        (u64::from(flag::<4>(word)), 0),
        (u64::from(flag::<62>(word)), 0),
        (u64::from(flag::<63>(word)), 1),
        (power(63), 0x8000_0000_0000_0000),
        (align_down(word, 0), word),
        (align_down(word, 12), 0x8123_4567_89ab_c000),
        (align_down(word, 63), 0x8000_0000_0000_0000),
    ] {
        assert!(rt; found == want);
    }
}

#[test]
fn addresses_below_their_bound(rt: HostRuntime) {
    for (found, want) in [
        (
            Addr::<48>::of(0xffff_ffff_ffff).map(|address| address.get()),
            Some(0xffff_ffff_ffff),
        ),
        (
            Addr::<48>::of(0x1_0000_0000_0000).map(|address| address.get()),
            None,
        ),
        (
            Addr::<64>::of(u64::MAX).map(|address| address.get()),
            Some(u64::MAX),
        ),
        (Addr::<0>::of(0).map(|address| address.get()), Some(0)),
        (Addr::<0>::of(1).map(|address| address.get()), None),
    ] {
        assert!(rt; found == want);
    }
}
