ghost use Rattle.std.specs.Prelude.{◌≡◌, ◌<◌, ◌∷◌, ◌&&◌, not, length, map, IfSome, option_map};
ghost use Rattle.std.specs.List.{list_all, slice_split};
ghost use Rattle.trace_lang.specs.Words.{is_blank, is_text, is_end};
ghost use Rattle.trace_lang.specs.Lines.{without_return};
ghost use Rattle.trace_lang.specs.Views.{parts_behind, is_text_behind, text_words, Steps};

use crate::LineRefusal;
use crate::places::{LineError, refused};
use memchr::memchr;

/// Whether a line has no byte but text.
pub fn is_plain(line: &[u8]) -> bool
    ensures { result ≡ list_all is_text line.now }
{
    line.iter()
        .all(|b| (*b >= 0x20 && *b <= 0x7e) || *b == b'\t')
}

/// The text up to the first line end, and what stands behind that.
pub fn cut_line<'a>(text: &'a [u8]) -> (&'a [u8], Option<&'a [u8]>)
    ensures parts { slice_split is_end text.now ≡ result.0.now ∷ parts_behind is_end (option_map (λ s. s.now) result.1) }
    ensures shorter { IfSome result.1 (λ s. length s.now < length text.now) }
{
    match memchr(b'\n', text) {
        Some(i) => (&text[..i], Some(&text[i + 1..])),
        None => (text, None),
    }
}

/// A line without the carriage return at its end.
pub fn without_return<'a>(line: &'a [u8]) -> &'a [u8]
    ensures { result.now ≡ without_return line.now }
{
    match line.strip_suffix(b"\r".as_slice()) {
        Some(text) => text,
        None => line,
    }
}

/// Whether a byte of a line is neither a blank nor one that is no text.
#[inline]
fn is_glyph(byte: u8) -> bool
    ensures { result ≡ (is_text byte && not (is_blank byte)) }
{
    byte >= 0x21 && byte <= 0x7e
}

/// Whether a byte ends a word.
#[inline]
fn is_blank(byte: u8) -> bool
    ensures { result ≡ is_blank byte }
{
    byte == b' ' || byte == b'\t'
}

/// The text up to the first blank, and what stands behind that. None where a byte before that is no text.
fn cut_word<'a>(text: &'a [u8]) -> Option<(&'a [u8], Option<&'a [u8]>)>
    ensures parts { IfSome result (λ r. slice_split is_blank text.now ≡ r.0.now ∷ parts_behind is_blank (option_map (λ s. s.now) r.1)) }
    ensures text { list_all is_text text.now ≡ is_text_behind (option_map (λ r. option_map (λ s. s.now) r.1) result) }
    ensures shorter { IfSome result (λ r. IfSome r.1 (λ s. length s.now < length text.now)) }
{
    for (i, byte) in text.iter().enumerate() {
        if is_glyph(*byte) {
            continue;
        }
        if is_blank(*byte) {
            return Some((&text[..i], Some(&text[i + 1..])));
        }
        return None;
    }
    Some((text, None))
}

/// Puts the words of a line in the place of those that stood. The line is refused for a byte that is no text.
pub fn words<'a>(words: &mut Vec<&'a [u8]>, line: &'a [u8]) -> Result<(), LineError>
    ensures { Steps (map (λ w. w.now) words.new.items) result (text_words line.now) }
{
    words.clear();
    let mut rest = Some(line);
    while let Some(text) = rest {
        let Some((word, behind)) = cut_word(text) else {
            return refused(LineRefusal::NotText);
        };
        if !word.is_empty() && words.push(word).is_err() {
            return Err(LineError::NoMemory);
        }
        rest = behind;
    }
    Ok(())
}
