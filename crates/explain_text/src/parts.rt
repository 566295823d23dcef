//! Parts of lines. Each is put behind what stands.
ghost use Rattle.std.specs.Prelude.{codes, ◌≡◌, ◌≤◌, ◌<◌, ◌+◌, ◌++◌, [], ◌∷◌, length, decimal, if◌then◌else◌};
ghost use Rattle.explain_text.specs.Texts.{level_text, stage_digit, class_text, what_text, value_text};
ghost use Rattle.explain_text.specs.Mapped.{letters_text, rights_text, hints_text, cache_text, device_text, normal_text, mem_text, share_text};
ghost use Rattle.permissions.specs.AccessNames.{el_text, kind_text};

use attributes::{Cache, Device, MemType, Share};
use bitflags::Flags;
use fault_codes::{Class, Stage};
use permissions::{El, Kind, Perms};
use texts::Line;
use trails::What;

/// Puts a level in decimal, also one below 0.
#[inline]
pub fn level<const ROOM: usize>(line: &mut Line<ROOM>, level: i8)
    requires { length line.old + 21 ≤ ROOM }
    ensures text { line.new ≡ line.old ++ level_text level }
    ensures room { length line.new ≤ length line.old + 21 }
{
    if level >= 0 {
        line.decimal(level as u64);
    } else {
        line.literal(b"-");
        line.decimal((0 - level as i64) as u64);
    }
}

/// Puts a stage's digit.
#[inline]
pub fn stage<const ROOM: usize>(line: &mut Line<ROOM>, stage: Stage)
    requires { length line.old + 1 ≤ ROOM }
    ensures text { line.new ≡ line.old ++ stage_digit stage }
    ensures room { length line.new ≡ length line.old + 1 }
{
    match stage {
        Stage::S1 => line.literal(b"1"),
        Stage::S2 => line.literal(b"2"),
    }
}

/// Puts the word for a class of faults.
#[inline]
pub fn class<const ROOM: usize>(line: &mut Line<ROOM>, class: Class)
    requires { length line.old + 12 ≤ ROOM }
    ensures text { line.new ≡ line.old ++ class_text class }
    ensures room { length line.new ≤ length line.old + 12 }
{
    match class {
        Class::Translation => line.literal(b"translation"),
        Class::AddressSize => line.literal(b"address-size"),
        Class::AccessFlag => line.literal(b"access-flag"),
        Class::Permission => line.literal(b"permission"),
        Class::External => line.literal(b"external"),
        Class::Conflict => line.literal(b"conflict"),
    }
}

/// Puts an item's stage and what it is.
#[inline]
pub fn name<const ROOM: usize>(line: &mut Line<ROOM>, stage: Stage, what: What)
    requires { length line.old + 7 ≤ ROOM }
    ensures text { line.new ≡ line.old ++ (codes "s" ++ (stage_digit stage ++ what_text what)) }
    ensures room { length line.new ≡ length line.old + 7 }
{
    match stage {
        Stage::S1 => match what {
            What::Base => line.literal(b"s1 base"),
            What::Word => line.literal(b"s1 word"),
        },
        Stage::S2 => match what {
            What::Base => line.literal(b"s2 base"),
            What::Word => line.literal(b"s2 word"),
        },
    }
}

/// A stage's digit.
#[inline(always)]
fn stage_glyph(stage: Stage) -> u8
    ensures { result ∷ [] ≡ stage_digit stage }
{
    match stage {
        Stage::S1 => b'1',
        Stage::S2 => b'2',
    }
}

/// What stands before the digits of a base's place, at a level of one digit.
#[inline(always)]
pub fn base_head(stage: Stage, level: u8) -> [u8; 21]
    requires { level < 4 }
    ensures { result ≡ codes "s" ++ (stage_digit stage ++ (codes " base level " ++ (decimal level ++ codes " at 0x"))) }
{
    let mut head = *b"s1 base level 0 at 0x";
    head[1] = stage_glyph(stage);
    head[14] = b'0' + level;
    head
}

/// What stands before the digits of a word's place, at a level of one digit.
#[inline(always)]
pub fn word_head(stage: Stage, level: u8) -> [u8; 21]
    requires { level < 4 }
    ensures { result ≡ codes "s" ++ (stage_digit stage ++ (codes " word level " ++ (decimal level ++ codes " at 0x"))) }
{
    let mut head = *b"s1 word level 0 at 0x";
    head[1] = stage_glyph(stage);
    head[14] = b'0' + level;
    head
}

/// The words around a level of one digit, up to the digits of a place.
#[inline]
fn level_words(level: u8) -> [u8; 14]
    requires { level < 4 }
    ensures text { result ≡ codes " level " ++ (decimal level ++ codes " at 0x") }
    ensures size { length result ≡ 14 }
{
    let mut words = *b" level 0 at 0x";
    words[7] = b'0' + level;
    words
}

/// Puts a level and what stands before the digits of a place, as ` level 3 at 0x`.
#[inline]
pub fn level_at<const ROOM: usize>(line: &mut Line<ROOM>, at: i8)
    requires { length line.old + 34 ≤ ROOM }
    ensures text { line.new ≡ line.old ++ (codes " level " ++ (level_text at ++ codes " at 0x")) }
    ensures room { length line.new ≤ length line.old + 34 }
{
    if at >= 0 && at <= 3 {
        line.literal(&level_words(at as u8));
        return;
    }
    line.literal(b" level ");
    level(line, at);
    line.literal(b" at 0x");
}

/// Puts what a word holds, and nothing for a base.
#[inline]
pub fn value<const ROOM: usize>(line: &mut Line<ROOM>, what: What, value: u64)
    requires { length line.old + 25 ≤ ROOM }
    ensures text { line.new ≡ line.old ++ value_text what value }
    ensures room { length line.new ≤ length line.old + 25 }
{
    if let What::Word = what {
        line.headed(b" value 0x", value);
    }
}

/// Puts an exception level behind a space.
#[inline]
pub fn el<const ROOM: usize>(line: &mut Line<ROOM>, el: El)
    requires { length line.old + 4 ≤ ROOM }
    ensures text { line.new ≡ line.old ++ (codes " " ++ el_text el) }
    ensures room { length line.new ≡ length line.old + 4 }
{
    match el {
        El::El0 => line.literal(b" el0"),
        El::El1 => line.literal(b" el1"),
    }
}

/// Puts what an access does behind a space.
#[inline]
pub fn kind<const ROOM: usize>(line: &mut Line<ROOM>, kind: Kind)
    requires { length line.old + 6 ≤ ROOM }
    ensures text { line.new ≡ line.old ++ (codes " " ++ kind_text kind) }
    ensures room { length line.new ≤ length line.old + 6 }
{
    match kind {
        Kind::Read => line.literal(b" read"),
        Kind::Write => line.literal(b" write"),
        Kind::Fetch => line.literal(b" fetch"),
    }
}

/// A right's letter, or `-` where it isn't given.
#[inline]
fn letter(given: bool, name: u8) -> u8
    ensures { result ≡ (if given then name else 0x2d) }
{
    if given { name } else { b'-' }
}

/// Puts the letters of rights to read, write and fetch.
#[inline]
fn letters<const ROOM: usize>(line: &mut Line<ROOM>, read: bool, write: bool, fetch: bool)
    requires { length line.old + 3 ≤ ROOM }
    ensures text { line.new ≡ line.old ++ letters_text read write fetch }
    ensures room { length line.new ≡ length line.old + 3 }
{
    line.literal(&[letter(read, b'r'), letter(write, b'w'), letter(fetch, b'x')]);
}

/// Puts the rights of an exception level.
#[inline]
pub fn rights<const ROOM: usize>(line: &mut Line<ROOM>, perms: Perms, el: El)
    requires { length line.old + 3 ≤ ROOM }
    ensures text { line.new ≡ line.old ++ rights_text perms el }
    ensures room { length line.new ≡ length line.old + 3 }
{
    match el {
        El::El0 => letters(
            line,
            perms.contains(Perms::R0),
            perms.contains(Perms::W0),
            perms.contains(Perms::X0),
        ),
        El::El1 => letters(
            line,
            perms.contains(Perms::R1),
            perms.contains(Perms::W1),
            perms.contains(Perms::X1),
        ),
    }
}

/// Puts the allocation hints of a cacheability.
#[inline]
fn hints<const ROOM: usize>(line: &mut Line<ROOM>, transient: bool, read: bool, write: bool)
    requires { length line.old + 6 ≤ ROOM }
    ensures text { line.new ≡ line.old ++ hints_text transient read write }
    ensures room { length line.new ≤ length line.old + 6 }
{
    line.when(read, b"+r");
    line.when(write, b"+w");
    line.when(transient, b"+t");
}

/// Puts how Normal memory is cached at one level.
#[inline]
fn cache<const ROOM: usize>(line: &mut Line<ROOM>, cache: Cache)
    requires { length line.old + 8 ≤ ROOM }
    ensures text { line.new ≡ line.old ++ cache_text cache }
    ensures room { length line.new ≤ length line.old + 8 }
{
    match cache {
        Cache::Nc => line.literal(b"nc"),
        Cache::Wt {
            transient,
            read,
            write,
        } => {
            line.literal(b"wt");
            hints(line, transient, read, write);
        }
        Cache::Wb {
            transient,
            read,
            write,
        } => {
            line.literal(b"wb");
            hints(line, transient, read, write);
        }
    }
}

/// Puts a kind of Device memory.
#[inline]
fn device<const ROOM: usize>(line: &mut Line<ROOM>, kind: Device)
    requires { length line.old + 13 ≤ ROOM }
    ensures text { line.new ≡ line.old ++ device_text kind }
    ensures room { length line.new ≤ length line.old + 13 }
{
    match kind {
        Device::NGnRnE => line.literal(b"device-nGnRnE"),
        Device::NGnRE => line.literal(b"device-nGnRE"),
        Device::NGRE => line.literal(b"device-nGRE"),
        Device::GRE => line.literal(b"device-GRE"),
    }
}

/// Puts Normal memory.
#[inline]
fn normal<const ROOM: usize>(line: &mut Line<ROOM>, outer: Cache, inner: Cache, tagged: bool)
    requires { length line.old + 43 ≤ ROOM }
    ensures text { line.new ≡ line.old ++ normal_text outer inner tagged }
    ensures room { length line.new ≤ length line.old + 43 }
{
    line.literal(b"normal outer ");
    cache(line, outer);
    line.literal(b" inner ");
    cache(line, inner);
    line.when(tagged, b" tagged");
}

/// Puts a memory type.
#[inline]
pub fn mem<const ROOM: usize>(line: &mut Line<ROOM>, mem: MemType)
    requires { length line.old + 43 ≤ ROOM }
    ensures text { line.new ≡ line.old ++ mem_text mem }
    ensures room { length line.new ≤ length line.old + 43 }
{
    match mem {
        MemType::Device { kind } => device(line, kind),
        MemType::Normal {
            outer,
            inner,
            tagged,
        } => normal(line, outer, inner, tagged),
    }
}

/// Puts a shareability.
#[inline]
pub fn share<const ROOM: usize>(line: &mut Line<ROOM>, share: Share)
    requires { length line.old + 3 ≤ ROOM }
    ensures text { line.new ≡ line.old ++ share_text share }
    ensures room { length line.new ≡ length line.old + 3 }
{
    match share {
        Share::Nsh => line.literal(b"nsh"),
        Share::Ish => line.literal(b"ish"),
        Share::Osh => line.literal(b"osh"),
    }
}
