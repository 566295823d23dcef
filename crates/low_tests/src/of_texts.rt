use texts::{LINE, Line, Tail, number};

/// A word, and its number.
const NUMBERS: [(&str, Option<u64>); 17] = [
    ("0", Some(0)),
    ("0x0", Some(0)),
    ("0xfFfFfFfFfFfFfFfF", Some(u64::MAX)),
    ("18446744073709551615", Some(u64::MAX)),
    ("00000000000000000012", Some(12)),
    ("18446744073709551616", None),
    ("99999999999999999999", None),
    ("000000000000000000012", None),
    ("0x00000000000000001", None),
    ("", None),
    ("0x", None),
    ("0X1", None),
    ("0xg", None),
    ("1f", None),
    ("+1", None),
    ("-1", None),
    (" 1", None),
];

#[test]
fn reads_numbers(rt: HostRuntime) {
    for &(word, expected) in NUMBERS.as_slice() {
        assert!(rt; number(word.as_bytes()) == expected);
    }
}

#[test]
fn lines_grow_at_their_end(rt: HostRuntime) {
    let mut line = Line::<LINE>::new();
    line.decimal(0);
    line.text(b" ");
    line.decimal(u64::MAX);
    line.text(b" ");
    line.hex(0);
    line.text(b" ");
    line.hex(u64::MAX);
    line.text(b" ");
    line.byte(0x0b);
    line.when(true, b" ");
    line.when(false, b"hidden ");
    line.shown(b"a\x1b\xffz");
    assert!(rt;
        line.bytes() == b"0 18446744073709551615 0x0 0xffffffffffffffff 0x0b a??z".as_slice()
    );
    line.clear();
    line.hex_digits(0x1f0);
    assert!(rt; line.bytes() == b"1f0".as_slice());
}

/// Heads and their numbers, of up to eight digits and of more, and an end that is put as a whole.
#[test]
fn numbers_stand_behind_heads(rt: HostRuntime) {
    let mut tail = Tail::new();
    tail.literal(b" moment ");
    tail.decimal(u32::MAX);
    tail.literal(b"\n");
    let mut line = Line::<LINE>::new();
    line.headed(b"head 0x", 0);
    line.number(b" at 0x ", 0x1234_5678, &tail);
    line.two_numbers(b"word at 0x", 0x1_2345_6789, b" value 0x", 0xf0, &tail);
    line.tail(&tail);
    assert!(rt;
        line.bytes()
            == b"head 0x0 at 0x 12345678 moment 4294967295\nword at 0x123456789 value 0xf0 moment 4294967295\n moment 4294967295\n".as_slice()
    );
}
