/// How Normal memory is cached at one level: Non-cacheable, write-through or write-back, with its allocation hints.
#[derive(Clone, Copy, Debug, PartialEq, Eq)]
pub enum Cache {
    Nc,
    Wt {
        transient: bool,
        read: bool,
        write: bool,
    },
    Wb {
        transient: bool,
        read: bool,
        write: bool,
    },
}

/// The kinds of Device memory, the strongest first.
#[derive(Clone, Copy, Debug, PartialEq, Eq)]
pub enum Device {
    NGnRnE,
    NGnRE,
    NGRE,
    GRE,
}

/// A memory type.
#[derive(Clone, Copy, Debug, PartialEq, Eq)]
pub enum MemType {
    Device {
        kind: Device,
    },
    Normal {
        outer: Cache,
        inner: Cache,
        tagged: bool,
    },
}

/// Shareability: Non-shareable, Inner Shareable or Outer Shareable.
#[derive(Clone, Copy, Debug, PartialEq, Eq)]
pub enum Share {
    Nsh,
    Ish,
    Osh,
}
