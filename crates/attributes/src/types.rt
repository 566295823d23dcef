//! Memory types and shareability as both stages name and combine them.
ghost use Rattle.std.specs.Prelude.{◌≡◌, ◌<◌, Some, None};
ghost use Rattle.attributes.specs.Memory.{device_of, cache_of, normal_of, mair_of, cache2_of, s2_attr_of, share_of, off_type};
ghost use Rattle.attributes.specs.Memory.{stronger, weaker, is_write_back, still_tagged, type_of_both, wider, raised, combined, alone};
ghost use Rattle.attributes.specs.declared.kinds.Share.TheVariants.{Osh};

use crate::kinds::{Cache, Device, MemType, Share};

/// The kind of Device memory that two bits name.
fn device(code: u8) -> Device
    ensures { result ≡ device_of code }
{
    match code {
        0 => Device::NGnRnE,
        1 => Device::NGnRE,
        2 => Device::NGRE,
        _ => Device::GRE,
    }
}

/// The cacheability of one half of a byte of `MAIR_EL1`, or None for 0000.
fn cache(code: u8) -> Option<Cache>
    requires { code < 16 }
    ensures { result ≡ cache_of code }
{
    let read = code / 2 % 2 == 1;
    let write = code % 2 == 1;
    let transient = code < 8;
    match code {
        0 => None,
        4 => Some(Cache::Nc),
        1..=3 | 8..=11 => Some(Cache::Wt {
            transient,
            read,
            write,
        }),
        _ => Some(Cache::Wb {
            transient,
            read,
            write,
        }),
    }
}

/// Normal memory of these cacheabilities, or Device-nGnRnE where one is reserved.
fn normal(outer: Option<Cache>, inner: Option<Cache>) -> MemType
    ensures { result ≡ normal_of outer inner }
{
    match (outer, inner) {
        (Some(outer), Some(inner)) => MemType::Normal {
            outer,
            inner,
            tagged: false,
        },
        _ => MemType::Device {
            kind: Device::NGnRnE,
        },
    }
}

/// The memory type of a byte of `MAIR_EL1`. Reserved bytes are Device-nGnRnE.
pub fn mair(byte: u8) -> MemType
    ensures { result ≡ mair_of byte }
{
    if byte / 16 == 0 && byte % 4 == 0 {
        return MemType::Device {
            kind: device(byte / 4),
        };
    }
    if byte == 0xf0 {
        let cached = Cache::Wb {
            transient: false,
            read: true,
            write: true,
        };
        return MemType::Normal {
            outer: cached,
            inner: cached,
            tagged: true,
        };
    }
    normal(cache(byte / 16), cache(byte % 16))
}

/// The cacheability that two bits of a stage 2 MemAttr name, without hints.
fn cache2(code: u32) -> Cache
    ensures { result ≡ cache2_of code }
{
    match code {
        3 => Cache::Wb {
            transient: false,
            read: false,
            write: false,
        },
        2 => Cache::Wt {
            transient: false,
            read: false,
            write: false,
        },
        _ => Cache::Nc,
    }
}

/// The memory type of a stage 2 MemAttr[3:0].
pub fn s2_attr(code: u32) -> MemType
    requires { code < 16 }
    ensures { result ≡ s2_attr_of code }
{
    if code / 4 == 0 {
        return MemType::Device {
            kind: device(code as u8),
        };
    }
    MemType::Normal {
        outer: cache2(code / 4),
        inner: cache2(code % 4),
        tagged: false,
    }
}

/// The shareability of SH[1:0].
pub fn share(code: u32) -> Share
    requires { code < 4 }
    ensures { result ≡ share_of code }
{
    match code {
        2 => Share::Osh,
        3 => Share::Ish,
        _ => Share::Nsh,
    }
}

/// The stronger of two kinds of Device memory.
fn stronger(a: Device, b: Device) -> Device
    ensures { result ≡ stronger a b }
{
    match (a, b) {
        (Device::NGnRnE, _) | (_, Device::NGnRnE) => Device::NGnRnE,
        (Device::NGnRE, _) | (_, Device::NGnRE) => Device::NGnRE,
        (Device::NGRE, _) | (_, Device::NGRE) => Device::NGRE,
        (Device::GRE, Device::GRE) => Device::GRE,
    }
}

/// The weaker of two cacheabilities, with the hints of stage 1, the first.
fn weaker(a: Cache, b: Cache) -> Cache
    ensures { result ≡ weaker a b }
{
    match (a, b) {
        (Cache::Nc, _) | (_, Cache::Nc) => Cache::Nc,
        (
            Cache::Wb {
                transient,
                read,
                write,
            },
            Cache::Wt { .. },
        ) => Cache::Wt {
            transient,
            read,
            write,
        },
        (hinted, _) => hinted,
    }
}

/// Whether a cacheability is write-back.
fn writes_back(cache: Cache) -> bool
    ensures { result ≡ is_write_back cache }
{
    matches!(cache, Cache::Wb { .. })
}

/// Normal memory of both stages. It stays tagged where both cacheabilities stay write-back.
fn normal_of_both(outer: Cache, inner: Cache, tagged: bool) -> MemType
    ensures { result ≡ still_tagged outer inner tagged }
{
    MemType::Normal {
        outer,
        inner,
        tagged: tagged & writes_back(outer) & writes_back(inner),
    }
}

/// The memory type of both stages.
fn both_types(m1: MemType, m2: MemType) -> MemType
    ensures { result ≡ type_of_both m1 m2 }
{
    match (m1, m2) {
        (MemType::Device { kind: a }, MemType::Device { kind: b }) => MemType::Device {
            kind: stronger(a, b),
        },
        (MemType::Device { kind }, _) | (_, MemType::Device { kind }) => MemType::Device { kind },
        (
            MemType::Normal {
                outer,
                inner,
                tagged,
            },
            MemType::Normal {
                outer: outer2,
                inner: inner2,
                ..
            },
        ) => normal_of_both(weaker(outer, outer2), weaker(inner, inner2), tagged),
    }
}

/// The wider of two shareabilities.
fn wider(a: Share, b: Share) -> Share
    ensures { result ≡ wider a b }
{
    match (a, b) {
        (Share::Osh, _) | (_, Share::Osh) => Share::Osh,
        (Share::Ish, _) | (_, Share::Ish) => Share::Ish,
        (Share::Nsh, Share::Nsh) => Share::Nsh,
    }
}

/// Device and wholly Non-cacheable memory is Outer Shareable.
fn raise(m: MemType, s: Share) -> Share
    ensures { result ≡ raised m s }
{
    match m {
        MemType::Device { .. }
        | MemType::Normal {
            outer: Cache::Nc,
            inner: Cache::Nc,
            ..
        } => Share::Osh,
        MemType::Normal { .. } => s,
    }
}

/// Memory type and shareability of both stages together.
pub fn combine(m1: MemType, s1: Share, m2: MemType, s2: Share) -> (MemType, Share)
    ensures { result ≡ combined m1 s1 m2 s2 }
{
    let m = both_types(m1, m2);
    (m, raise(m, wider(s1, s2)))
}

/// Memory type and shareability of one stage alone.
pub fn alone(m: MemType, s: Share) -> (MemType, Share)
    ensures { result ≡ alone m s }
{
    (m, raise(m, s))
}

/// Memory type and shareability while stage 1 is off. `cached` is `SCTLR_EL1`.I.
pub fn mmu_off(fetch: bool, cached: bool) -> (MemType, Share)
    ensures { result ≡ (off_type fetch cached, Osh) }
{
    let m = match (fetch, cached) {
        (true, true) => {
            let cache = Cache::Wt {
                transient: false,
                read: true,
                write: false,
            };
            MemType::Normal {
                outer: cache,
                inner: cache,
                tagged: false,
            }
        }
        (true, false) => MemType::Normal {
            outer: Cache::Nc,
            inner: Cache::Nc,
            tagged: false,
        },
        (false, _) => MemType::Device {
            kind: Device::NGnRnE,
        },
    };
    (m, Share::Osh)
}
