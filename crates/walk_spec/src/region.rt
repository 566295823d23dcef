/// `2 ^ class` bytes of addresses: the `start`-th of this size.
#[derive(Clone, Copy)]
pub struct Region {
    pub start: u64,
    pub class: u32,
}
