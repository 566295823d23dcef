ghost use Rattle.std.specs.Prelude.{◌≡◌, ◌≤◌, ◌-◌, map, Err};
ghost use Rattle.texts.specs.Results.{Gives};
ghost use Rattle.trace_lang.specs.Words.{word_or, word_at, number_at, in_range, no_word_at};
ghost use Rattle.trace_lang.specs.Views.{line_refusal};

use crate::LineRefusal;
use texts::number;

/// Why a line isn't read.
#[derive(Clone, Copy)]
pub enum LineError {
    /// Memory was refused.
    NoMemory,
    /// The line is refused.
    Refused { why: LineRefusal },
}

pub fn refused<T>(why: LineRefusal) -> Result<T, LineError>
    ensures { result ≡ Err (LineError.Refused why) }
{
    Err(LineError::Refused { why })
}

/// A value, or a word that may not stand at this place.
pub fn word_or<T>(place: u32, found: Option<T>) -> Result<T, LineError>
    ensures { Gives line_refusal (λ x. x) result (word_or place found) }
{
    match found {
        Some(value) => Ok(value),
        None => refused(LineRefusal::BadWord { place }),
    }
}

/// The word at a place. Places count from 1.
pub fn word_at<'a>(words: &[&'a [u8]], place: u32) -> Result<&'a [u8], LineError>
    requires { 1 ≤ place }
    ensures { Gives line_refusal (λ w. w.now) result (word_or place (word_at (map (λ w. w.now) words.now) (place - 1))) }
{
    match words.get(place as usize - 1) {
        Some(word) => Ok(*word),
        None => refused(LineRefusal::BadWord { place }),
    }
}

/// The number at a place.
pub fn number_at(words: &[&[u8]], place: u32) -> Result<u64, LineError>
    requires { 1 ≤ place }
    ensures { Gives line_refusal (λ n. n) result (number_at (map (λ w. w.now) words.now) place) }
{
    let word = word_at(words, place)?;
    match number(word) {
        Some(n) => Ok(n),
        None => refused(LineRefusal::BadNumber { place }),
    }
}

/// A number that passes a test.
pub fn in_range(place: u32, passes: bool, n: u64) -> Result<u64, LineError>
    ensures { Gives line_refusal (λ n. n) result (in_range place passes n) }
{
    if passes {
        Ok(n)
    } else {
        refused(LineRefusal::OutOfRange { place })
    }
}

/// Refuses a word at a place or behind it.
pub fn no_word_at(words: &[&[u8]], place: u32) -> Result<(), LineError>
    ensures { Gives line_refusal (λ u. u) result (no_word_at (map (λ w. w.now) words.now) place) }
{
    if words.len() < place as usize {
        Ok(())
    } else {
        refused(LineRefusal::BadWord { place })
    }
}
