ghost use Rattle.std.specs.Prelude.{◌≡◌, ℕ, ◌≤◌, ◌<◌, ◌+◌, ◌*◌, ◌^◌, nat_lt, Some, None, if◌then◌else◌};
ghost use Rattle.std.specs.Char.{digit_value};
ghost use Rattle.texts.specs.Numbers.{number_in, number_of};

/// The value of each byte as a digit in any radix up to 36, and 36 where it is none: by a table, since letters and decimal
/// digits take turns in a number and a branch on them would often be mispredicted.
const VALUES: [u8; 256] = [
    36, 36, 36, 36, 36, 36, 36, 36, 36, 36, 36, 36, 36, 36, 36, 36, 36, 36, 36, 36, 36, 36, 36, 36,
    36, 36, 36, 36, 36, 36, 36, 36, 36, 36, 36, 36, 36, 36, 36, 36, 36, 36, 36, 36, 36, 36, 36, 36,
    0, 1, 2, 3, 4, 5, 6, 7, 8, 9, 36, 36, 36, 36, 36, 36, 36, 10, 11, 12, 13, 14, 15, 16, 17, 18,
    19, 20, 21, 22, 23, 24, 25, 26, 27, 28, 29, 30, 31, 32, 33, 34, 35, 36, 36, 36, 36, 36, 36, 10,
    11, 12, 13, 14, 15, 16, 17, 18, 19, 20, 21, 22, 23, 24, 25, 26, 27, 28, 29, 30, 31, 32, 33, 34,
    35, 36, 36, 36, 36, 36, 36, 36, 36, 36, 36, 36, 36, 36, 36, 36, 36, 36, 36, 36, 36, 36, 36, 36,
    36, 36, 36, 36, 36, 36, 36, 36, 36, 36, 36, 36, 36, 36, 36, 36, 36, 36, 36, 36, 36, 36, 36, 36,
    36, 36, 36, 36, 36, 36, 36, 36, 36, 36, 36, 36, 36, 36, 36, 36, 36, 36, 36, 36, 36, 36, 36, 36,
    36, 36, 36, 36, 36, 36, 36, 36, 36, 36, 36, 36, 36, 36, 36, 36, 36, 36, 36, 36, 36, 36, 36, 36,
    36, 36, 36, 36, 36, 36, 36, 36, 36, 36, 36, 36, 36, 36, 36, 36, 36, 36, 36, 36, 36, 36, 36, 36,
    36, 36, 36, 36, 36, 36, 36, 36, 36, 36, 36, 36, 36, 36,
];

/// The value of a digit in any radix up to 36, and 36 where it is none.
#[inline]
fn value_of(byte: u8) -> u64
    ensures { result ≡ digit_value byte }
{
    VALUES[byte as usize] as u64
}

/// The number with one digit more, where that fits.
fn grown(n: u64, radix: u64, digit: u64) -> Option<u64>
    ensures { result ≡ (if nat_lt (n * radix + digit) (2 ^ 64) then Some (n * radix + digit) else None) }
{
    n.checked_mul(radix)?.checked_add(digit)
}

fn number_of_digits(digits: &[u8], radix: u64, most: usize) -> Option<u64>
    requires low { 2 ≤ radix }
    requires high { radix ≤ 36 }
    ensures { result ≡ number_in radix most digits.now }
{
    if digits.is_empty() || digits.len() > most {
        return None;
    }
    let mut n = 0u64;
    for byte in digits {
        let digit = value_of(*byte);
        if digit >= radix {
            return None;
        }
        n = grown(n, radix, digit)?;
    }
    Some(n)
}

/// The number that a word is, or None where it is none: `0x` and 1 to 16 hexadecimal digits of either case, or 1 to 20
/// decimal digits.
pub fn number(word: &[u8]) -> Option<u64>
    ensures { result ≡ number_of word.now }
{
    match word {
        [b'0', b'x', digits @ ..] => number_of_digits(digits, 16, 16),
        _ => number_of_digits(word, 10, 20),
    }
}
