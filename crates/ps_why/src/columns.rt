//! In which column of its line the marks of a fault begin.

ghost use Rattle.std.specs.Prelude.{◌≡◌, ◌≤◌, length, take};
ghost use Rattle.ps_why.specs.Columns.{characters_in, column_of};

use crate::lines::{goes_on, line_start};
use crate::marks::Marks;

/// The first bytes, at most `most`.
fn first_bytes(bytes: &[u8], most: usize) -> &[u8]
    ensures { result.now ≡ take most bytes.now }
{
    &bytes[..most.min(bytes.len())]
}

/// How many characters begin in bytes.
fn characters_in(bytes: &[u8]) -> usize
    ensures count { result ≡ characters_in bytes.now }
    ensures few { result ≤ length bytes.now }
{
    let mut count = 0;
    for byte in bytes {
        if goes_on(*byte) {
            continue;
        }
        count += 1;
    }
    count
}

/// The column in which the marks begin that stand below a line, counted in characters from 1; the first, where there
/// are none.
pub fn column_of(text: &[u8], line: u32, marks: Option<Marks>) -> usize
    ensures { result ≡ column_of text.now line marks }
{
    let Some(marks) = marks else {
        return 1;
    };
    let start = line_start(text, line);
    let before = marks.mark.from.saturating_sub(start);
    characters_in(first_bytes(&text[start..], before)) + 1
}
