//! The size of rooms, as a word of the prelude writes it.

ghost use Rattle.std.specs.Prelude.{◌≡◌, ◌≤◌, true, length, slice_index_or, [], map};
ghost use Rattle.std.specs.List.{before_first, after_first};
ghost use Rattle.std.specs.Str.{all_ascii_digits};
ghost use Rattle.std.specs.Str.Parse.{digits_value};
ghost use Rattle.ps_model.specs.text.WrittenSizes.{is_x, are_few_digits, is_side, side_of, size_of_word};
ghost use Rattle.ps_text.specs.WordViews.{text_of};

use ps_model::{RoomSize, SIDE_LIMIT};
use ps_text::Word;

/// The digits of a side, at most.
const MOST_DIGITS: usize = 3;

/// Whether the byte parts the two sides of a size.
fn is_x(byte: u8) -> bool
    ensures { result ≡ is_x byte }
{
    byte == b'x' || byte == b'X'
}

/// What stands before the first `x`, and what stands after it; without an `x` all, and nothing.
fn cut_at_x(bytes: &[u8]) -> (&[u8], &[u8])
    ensures before { result.0.now ≡ before_first is_x bytes.now }
    ensures behind { result.1.now ≡ after_first is_x bytes.now }
{
    match bytes.iter().position(|byte| is_x(*byte)) {
        Some(place) => (&bytes[..place], &bytes[place + 1..]),
        None => (bytes, &[]),
    }
}

/// Whether the bytes are one to three digits.
fn are_few_digits(bytes: &[u8]) -> bool
    ensures { result ≡ are_few_digits bytes.now }
{
    if bytes.is_empty() || bytes.len() > MOST_DIGITS {
        return false;
    }
    bytes.iter().all(|byte| byte.is_ascii_digit())
}

/// The number that few digits write.
fn number_of(digits: &[u8]) -> u32
    requires short { length digits.now ≤ 3 }
    requires digits { all_ascii_digits digits.now ≡ true }
    ensures { result ≡ digits_value 10 digits.now }
{
    let mut number = 0;
    for digit in digits {
        number = number * 10 + u32::from(*digit - b'0');
    }
    number
}

/// Whether the number is a side's.
fn is_side(number: u32) -> bool
    ensures { result ≡ is_side number }
{
    1 <= number && number <= SIDE_LIMIT
}

/// The side that the bytes write, if they write one.
fn side_of(bytes: &[u8]) -> Option<u32>
    ensures { result ≡ side_of bytes.now }
{
    if !are_few_digits(bytes) {
        return None;
    }
    let number = number_of(bytes);
    if !is_side(number) {
        return None;
    }
    Some(number)
}

/// The size that the word writes, if it writes one: `WxH`, each side in one to three digits and from 1 to `SIDE_LIMIT`.
fn size_of_word(word: &str) -> Option<RoomSize>
    ensures { result ≡ size_of_word word.now }
{
    let (columns, rows) = cut_at_x(word.as_bytes());
    let width = side_of(columns)?;
    let height = side_of(rows)?;
    Some(RoomSize { width, height })
}

/// The size that the second of a line's words writes, if it writes one.
pub fn second_size(words: &[Word<'_>]) -> Option<RoomSize>
    ensures { result ≡ size_of_word (slice_index_or (map text_of words.now) 1 []) }
{
    if words.len() < 2 {
        return None;
    }
    size_of_word(words[1].text())
}
