use fault_codes::Stage;
use trails::{Item, MOST_ITEMS, Trail, What};

/// A word of stage 2 that was read at this moment.
fn word(moment: u32) -> Item {
    Item {
        pa: 8 * moment as u64,
        value: 0x1003,
        moment,
        stage: Stage::S2,
        level: 3,
        what: What::Word,
    }
}

#[test]
fn items_are_kept_in_order(rt: HostRuntime) {
    let mut trail = Trail::none();
    for moment in 0..50 {
        if trail.items().len() < MOST_ITEMS {
            trail.push(word(moment));
        }
    }
    assert!(rt; trail.items().len() == 42);
    for (item, moment) in trail.items().iter().zip(0..) {
        assert!(rt; *item == word(moment));
    }
    for (len, want) in [(50, 42), (3, 3), (0, 0)] {
        if len <= trail.items().len() {
            trail.cut(len);
        }
        assert!(rt; trail.items().len() == want);
    }
}
