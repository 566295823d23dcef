use sysregs::Side;

/// How stage 1 begins: it is off and gives this IPA in bytes, or it walks the tables of a side from this level.
#[derive(Clone, Copy)]
pub enum Begin1 {
    Off { ipa: u64 },
    On { side: Side, level: i8 },
}
