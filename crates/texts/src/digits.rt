//! Numbers as digits, which are written into a room behind what stands there, two at a time.
ghost use Rattle.std.specs.Prelude.{◌≡◌, ◌++◌, ◌≤◌, ◌<◌, ◌+◌, ◌-◌, ◌*◌, ◌%◌, ◌^◌, [], take, drop, length, false};
ghost use Rattle.std.specs.Fmt.{digits, digit_glyph};
ghost use Rattle.texts.specs.Texts.{pair_text, last_digits, HasDigits, ArePairs};

use crate::room::{array_after, array_before, text_after};

/// The glyphs of the digits in any radix up to 16.
const GLYPHS: [u8; 16] = *b"0123456789abcdef";

#[inline]
pub fn glyph(digit: u8) -> u8
    requires { digit < 16 }
    ensures { result ≡ digit_glyph false digit }
{
    GLYPHS[digit as usize]
}

/// The decimal digits of the numbers below 100, two each.
const DECIMAL_PAIRS: [u8; 200] =
    *b"000102030405060708091011121314151617181920212223242526272829303132333435363738394041424344454647\
    484950515253545556575859606162636465666768697071727374757677787980818283848586878889909192939495\
    96979899";

/// The hexadecimal digits of the numbers below 256, two each.
const HEX_PAIRS: [u8; 512] =
    *b"000102030405060708090a0b0c0d0e0f101112131415161718191a1b1c1d1e1f202122232425262728292a2b2c2d2e2f\
    303132333435363738393a3b3c3d3e3f404142434445464748494a4b4c4d4e4f505152535455565758595a5b5c5d5e5f\
    606162636465666768696a6b6c6d6e6f707172737475767778797a7b7c7d7e7f808182838485868788898a8b8c8d8e8f\
    909192939495969798999a9b9c9d9e9fa0a1a2a3a4a5a6a7a8a9aaabacadaeafb0b1b2b3b4b5b6b7b8b9babbbcbdbebf\
    c0c1c2c3c4c5c6c7c8c9cacbcccdcecfd0d1d2d3d4d5d6d7d8d9dadbdcdddedfe0e1e2e3e4e5e6e7e8e9eaebecedeeef\
    f0f1f2f3f4f5f6f7f8f9fafbfcfdfeff";

/// The two digits of a number, of a table of such pairs.
#[inline(always)]
fn pair<const N: usize>(pairs: &[u8; N], radix: u64, n: u64) -> &[u8; 2]
    requires pairs { ArePairs radix pairs.now }
    requires n { n < radix * radix }
    ensures { result.now ≡ pair_text radix n }
{
    let at = 2 * n as usize;
    let all = &pairs[..];
    let Some(pair) = all[at..at + 2].as_array::<2>() else {
        unreachable!()
    };
    pair
}

/// The most decimal digits of a number.
const DECIMAL: usize = 20;

/// The most hexadecimal digits of a number.
const HEX: usize = 16;

/// The most zeros that are written in front of a number of eight or sixteen hexadecimal digits.
const ZEROS: usize = 7;

/// Writes a number of at most `most` decimal digits so that it ends before `end`, the last digits first. Answers where it
/// starts.
#[inline(always)]
#[tactic(auto, using(crate::proofs::Pairs::decimal_pairs))]
fn decimal_before(bytes: &mut [u8], end: usize, n: u64, most: usize) -> usize
    requires most { (0 < most) × (most ≤ 64) × (n < 10 ^ most) }
    requires end { (most ≤ end) × (end ≤ length bytes.old) }
    ensures size { length bytes.new ≡ length bytes.old }
    ensures text { drop result bytes.new ≡ digits 10 false n ++ drop end bytes.old }
    ensures within { (result ≤ end) × (end ≤ result + most) }
{
    let mut start = end;
    let mut rest = n;
    while rest >= 100 {
        start = array_before::<2>(bytes, start, pair::<200>(&DECIMAL_PAIRS, 10, rest % 100));
        rest /= 100;
    }
    if rest >= 10 {
        return array_before::<2>(bytes, start, pair::<200>(&DECIMAL_PAIRS, 10, rest));
    }
    array_before::<1>(bytes, start, &[glyph(rest as u8)])
}

/// Writes a number of at most `most` decimal digits behind the first `end` bytes. Bytes behind it are written too, `most` in
/// all. Answers where the number ends.
#[inline(always)]
pub fn decimal_after(bytes: &mut [u8], end: usize, n: u64, most: usize) -> usize
    requires most { (0 < most) × (most ≤ DECIMAL) × (n < 10 ^ most) }
    requires end { end + most ≤ length bytes.old }
    ensures size { length bytes.new ≡ length bytes.old }
    ensures text { take result bytes.new ≡ take end bytes.old ++ digits 10 false n }
    ensures ends { (end ≤ result) × (result ≤ end + most) }
{
    let mut room = [0u8; 2 * DECIMAL];
    let start = decimal_before(&mut room, DECIMAL, n, most);
    text_after(bytes, end, &room[start..start + most]);
    end + (DECIMAL - start)
}

/// Writes the last two hexadecimal digits of a number so that they end before `end`. Answers where they start.
#[inline(always)]
#[tactic(auto, using(crate::proofs::Pairs::hex_pairs))]
fn two_before(bytes: &mut [u8], end: usize, n: u64) -> usize
    requires { (2 ≤ end) × (end ≤ length bytes.old) }
    ensures size { length bytes.new ≡ length bytes.old }
    ensures text { drop result bytes.new ≡ pair_text 16 (n % 256) ++ drop end bytes.old }
    ensures front { take result bytes.new ≡ take result bytes.old }
    ensures starts { result + 2 ≡ end }
{
    array_before::<2>(bytes, end, pair::<512>(&HEX_PAIRS, 16, n % 256))
}

/// Writes the last eight hexadecimal digits of a number so that they end before `end`. Answers where they start.
#[inline(always)]
fn eight_before(bytes: &mut [u8], end: usize, n: u64) -> usize
    requires { (8 ≤ end) × (end ≤ length bytes.old) }
    ensures size { length bytes.new ≡ length bytes.old }
    ensures text { drop result bytes.new ≡ last_digits 8 16 n (drop end bytes.old) }
    ensures front { take result bytes.new ≡ take result bytes.old }
    ensures starts { result + 8 ≡ end }
{
    let start = two_before(bytes, end, n);
    let start = two_before(bytes, start, n / 256);
    let start = two_before(bytes, start, n / 256 / 256);
    two_before(bytes, start, n / 256 / 256 / 256)
}

/// How many hexadecimal digits a number has, by its first bit that is set.
#[inline(always)]
fn hex_count(n: u64) -> usize
    ensures { HasDigits result n }
{
    (63 - (n | 1).leading_zeros()) as usize / 4 + 1
}

/// Writes a number of so many hexadecimal digits so that it ends before `end`. Eight or sixteen digits are written, so that
/// up to seven zeros stand in front of it.
#[inline(always)]
fn hex_before(bytes: &mut [u8], end: usize, n: u64, count: usize)
    requires count { HasDigits count n }
    requires end { (count + 7 ≤ end) × (end ≤ length bytes.old) }
    ensures size { length bytes.new ≡ length bytes.old }
    ensures text { drop (end - count) bytes.new ≡ digits 16 false n ++ drop end bytes.old }
    ensures front { take (end - (count + 7)) bytes.new ≡ take (end - (count + 7)) bytes.old }
{
    let start = eight_before(bytes, end, n);
    if count > 8 {
        eight_before(bytes, start, n / (1 << 32));
    }
}

/// Writes a number in hexadecimal digits without leading zeros behind the first `end` bytes. Bytes behind it are written too,
/// HEX in all. Answers where the number ends.
#[inline(always)]
pub fn hex_after(bytes: &mut [u8], end: usize, n: u64) -> usize
    requires { end + HEX ≤ length bytes.old }
    ensures size { length bytes.new ≡ length bytes.old }
    ensures text { take result bytes.new ≡ take end bytes.old ++ digits 16 false n }
    ensures ends { (end ≤ result) × (result ≤ end + HEX) }
{
    let count = hex_count(n);
    let mut room = [0u8; 3 * HEX];
    hex_before(&mut room, 2 * HEX, n, count);
    let start = 2 * HEX - count;
    text_after(bytes, end, &room[start..start + HEX]);
    end + count
}

/// Writes a head and a number in hexadecimal digits without leading zeros behind the first `end` bytes. Where the head has
/// room for the zeros that may stand in front of the digits, these come first, so that the head takes the zeros' place.
/// Answers where the number ends.
#[inline(always)]
pub fn headed_after<const N: usize>(bytes: &mut [u8], end: usize, head: &[u8; N], n: u64) -> usize
    requires end { end + N + HEX ≤ length bytes.old }
    ensures size { length bytes.new ≡ length bytes.old }
    ensures text { take result bytes.new ≡ take end bytes.old ++ (head.now ++ digits 16 false n) }
    ensures ends { (end + N ≤ result) × (result ≤ end + N + HEX) }
{
    if N < ZEROS {
        let end = array_after::<N>(bytes, end, head);
        return hex_after(bytes, end, n);
    }
    let count = hex_count(n);
    let after = end + N + count;
    hex_before(bytes, after, n, count);
    array_after::<N>(bytes, end, head);
    after
}
