ghost use Rattle.std.specs.Prelude.{◌≡◌, ◌++◌, ℕ, ◌≤◌, ◌<◌, ◌+◌, ◌*◌, ◌^◌, List};
ghost use Rattle.std.specs.Prelude.{[], take, length, map, false, decimal, if◌then◌else◌};
ghost use Rattle.std.specs.Fmt.{digits, digit_glyph};
ghost use Rattle.texts.specs.Texts.{hex_text, byte_text, pair_text, ArePairs};
ghost use Rattle.texts.specs.Shown.{shown, shown_byte};

use crate::digits::{decimal_after, glyph, headed_after, hex_after};
use crate::room::{array_after, text_after};
use std::marker::Model;

/// The most bytes of a line, which may have line ends in it: there is room for all lines of one step of a run, two trails
/// of 42 items among them.
pub const LINE: usize = 16 * 1024;

/// How many bytes of a name are shown.
pub const SHOWN: usize = 64;

/// A text of at most ROOM bytes, which may have line ends in it. It stands at the front of an array and grows at its end.
#[derive(Drop)]
pub struct Line<const ROOM: usize> {
    bytes: [u8; ROOM],
    end: usize,
}

impl<const ROOM: usize> Model for Line<ROOM> {
    ghost use Rattle.std.specs.Prelude.{List, ℕ, take, ◌≤◌};

    ghost Value = { List ℕ };

    ghost view = { λ s. take s.end s.bytes };

    ghost invariant = { λ s. s.end ≤ ROOM };
}

/// How many bytes a tail has at most.
pub const TAIL: usize = 24;

/// The end of a line, which many lines may have: it is put as a whole. It stands at the front of an array, as a line does.
#[derive(Drop)]
pub struct Tail {
    bytes: [u8; TAIL],
    end: usize,
}

impl Model for Tail {
    ghost use Rattle.std.specs.Prelude.{List, ℕ, take, ◌≤◌};
    ghost use Rattle.texts.specs.declared.line.TheConstants.{TAIL};

    ghost Value = { List ℕ };

    ghost view = { λ s. take s.end s.bytes };

    ghost invariant = { λ s. s.end ≤ TAIL };
}

impl Tail {
    /// A tail without text.
    #[inline]
    pub fn new() -> Tail
        ensures { result ≡ [] }
    {
        Tail {
            bytes: [0; TAIL],
            end: 0,
        }
    }

    /// Puts a text behind what stands.
    #[inline(always)]
    pub fn literal<const N: usize>(&mut self, text: &[u8; N])
        requires { length self.old + N ≤ TAIL }
        ensures text { self.new ≡ self.old ++ text.now }
        ensures room { length self.new ≡ length self.old + N }
    {
        self.end = array_after::<N>(&mut self.bytes, self.end, text);
    }

    /// Puts a number in decimal behind what stands.
    #[inline]
    pub fn decimal(&mut self, n: u32)
        requires { length self.old + 10 ≤ TAIL }
        ensures text { self.new ≡ self.old ++ decimal n }
        ensures room { length self.new ≤ length self.old + 10 }
    {
        self.end = decimal_after(&mut self.bytes, self.end, n as u64, 10);
    }
}

/// Writes a tail behind the first `end` bytes. Bytes behind it are written too, TAIL in all. Answers where it ends.
#[inline(always)]
fn tail_after(bytes: &mut [u8], end: usize, tail: &Tail) -> usize
    requires { end + TAIL ≤ length bytes.old }
    ensures size { length bytes.new ≡ length bytes.old }
    ensures text { take result bytes.new ≡ take end bytes.old ++ tail.now }
    ensures ends { (end ≤ result) × (result ≤ end + TAIL) }
{
    array_after::<TAIL>(bytes, end, &tail.bytes);
    end + tail.end
}

#[inline]
fn shown_byte(byte: u8) -> u8
    ensures { result ≡ Rattle.texts.specs.Shown.shown_byte byte }
{
    if byte >= 0x21 && byte <= 0x7e {
        byte
    } else {
        b'?'
    }
}

/// Puts a name as it is shown at the front of an array. Answers its length.
fn shown_name(name: &[u8], room: &mut [u8; SHOWN]) -> usize
    ensures most { result ≤ SHOWN }
    ensures text { take result room.new ≡ shown name.now }
{
    let count = name.len().min(SHOWN);
    let name = &name[..count];
    for (i, byte) in name.iter().enumerate() {
        room[i] = shown_byte(*byte);
    }
    count
}

impl<const ROOM: usize> Line<ROOM> {
    /// A line without text.
    #[inline]
    pub fn new() -> Line<ROOM>
        ensures { result ≡ [] }
    {
        Line {
            bytes: [0; ROOM],
            end: 0,
        }
    }

    /// Takes the text out, so that the line is used again.
    #[inline]
    pub fn clear(&mut self)
        ensures { self.new ≡ [] }
    {
        self.end = 0;
    }

    /// The text so far.
    #[inline]
    pub fn bytes(&self) -> &[u8]
        ensures { result.now ≡ self.now }
    {
        &self.bytes[..self.end]
    }

    /// Puts a text behind what stands.
    #[inline]
    pub fn text(&mut self, text: &[u8])
        requires { length self.old + length text.now ≤ ROOM }
        ensures text { self.new ≡ self.old ++ text.now }
        ensures room { length self.new ≡ length self.old + length text.now }
    {
        self.end = text_after(&mut self.bytes, self.end, text);
    }

    /// Puts a text whose size is known when this is compiled, which makes it a few moves.
    #[inline(always)]
    pub fn literal<const N: usize>(&mut self, text: &[u8; N])
        requires { length self.old + N ≤ ROOM }
        ensures text { self.new ≡ self.old ++ text.now }
        ensures room { length self.new ≡ length self.old + N }
    {
        self.end = array_after::<N>(&mut self.bytes, self.end, text);
    }

    /// Puts a tail.
    #[inline(always)]
    pub fn tail(&mut self, tail: &Tail)
        requires { length self.old + TAIL ≤ ROOM }
        ensures text { self.new ≡ self.old ++ tail.now }
        ensures room { length self.new ≤ length self.old + TAIL }
    {
        self.end = tail_after(&mut self.bytes, self.end, tail);
    }

    /// Puts a text that is shown or not.
    #[inline]
    pub fn when(&mut self, is_shown: bool, text: &[u8])
        requires { length self.old + length text.now ≤ ROOM }
        ensures text { self.new ≡ self.old ++ (if is_shown then text.now else []) }
        ensures room { length self.new ≤ length self.old + length text.now }
    {
        if is_shown {
            self.text(text);
        }
    }

    /// Puts a byte as `0x` and two hexadecimal digits.
    #[inline]
    pub fn byte(&mut self, n: u8)
        requires { length self.old + 4 ≤ ROOM }
        ensures text { self.new ≡ self.old ++ byte_text n }
        ensures room { length self.new ≡ length self.old + 4 }
    {
        self.literal::<4>(&[b'0', b'x', glyph(n / 16), glyph(n % 16)]);
    }

    /// Puts a number as hexadecimal digits without leading zeros, and without `0x`.
    #[inline]
    pub fn hex_digits(&mut self, n: u64)
        requires { length self.old + 16 ≤ ROOM }
        ensures text { self.new ≡ self.old ++ digits 16 false n }
        ensures room { length self.new ≤ length self.old + 16 }
    {
        self.end = hex_after(&mut self.bytes, self.end, n);
    }

    /// Puts a number as `0x` and hexadecimal digits without leading zeros.
    #[inline]
    pub fn hex(&mut self, n: u64)
        requires { length self.old + 18 ≤ ROOM }
        ensures text { self.new ≡ self.old ++ hex_text n }
        ensures room { length self.new ≤ length self.old + 18 }
    {
        self.literal::<2>(b"0x");
        self.hex_digits(n);
    }

    /// Puts a number in decimal.
    #[inline]
    pub fn decimal(&mut self, n: u64)
        requires { length self.old + 20 ≤ ROOM }
        ensures text { self.new ≡ self.old ++ decimal n }
        ensures room { length self.new ≤ length self.old + 20 }
    {
        self.end = decimal_after(&mut self.bytes, self.end, n, 20);
    }

    /// Puts a head and a number in hexadecimal digits without leading zeros.
    #[inline]
    pub fn headed<const N: usize>(&mut self, head: &[u8; N], n: u64)
        requires room { length self.old + N + 16 ≤ ROOM }
        ensures text { self.new ≡ self.old ++ (head.now ++ digits 16 false n) }
        ensures room { length self.new ≤ length self.old + N + 16 }
    {
        self.end = headed_after::<N>(&mut self.bytes, self.end, head, n);
    }

    /// Puts a head, a number in hexadecimal digits without leading zeros, and a tail.
    #[inline(always)]
    pub fn number<const N: usize>(&mut self, head: &[u8; N], n: u64, tail: &Tail)
        requires room { length self.old + N + 40 ≤ ROOM }
        ensures text { self.new ≡ self.old ++ (head.now ++ (digits 16 false n ++ tail.now)) }
        ensures room { length self.new ≤ length self.old + N + 40 }
    {
        let end = headed_after::<N>(&mut self.bytes, self.end, head, n);
        self.end = tail_after(&mut self.bytes, end, tail);
    }

    /// Puts a head, a number, a text between, a second number, and a tail. Both numbers are hexadecimal digits without
    /// leading zeros.
    #[inline(always)]
    pub fn two_numbers<const N: usize, const M: usize>(
        &mut self,
        head: &[u8; N],
        first: u64,
        between: &[u8; M],
        second: u64,
        tail: &Tail,
    )
        requires room { length self.old + N + M + 56 ≤ ROOM }
        ensures text { self.new ≡ self.old ++ (head.now ++ (digits 16 false first ++ (between.now ++ (digits 16 false second ++ tail.now)))) }
        ensures room { length self.new ≤ length self.old + N + M + 56 }
    {
        let end = headed_after::<N>(&mut self.bytes, self.end, head, first);
        let end = headed_after::<M>(&mut self.bytes, end, between, second);
        self.end = tail_after(&mut self.bytes, end, tail);
    }

    /// Puts a name as it is shown: its first SHOWN bytes, with `?` for each that is not visible.
    pub fn shown(&mut self, name: &[u8])
        requires { length self.old + SHOWN ≤ ROOM }
        ensures text { self.new ≡ self.old ++ shown name.now }
        ensures room { length self.new ≤ length self.old + SHOWN }
    {
        let mut room = [0u8; SHOWN];
        let count = shown_name(name, &mut room);
        self.text(&room[..count]);
    }
}
