//! Where a text differs from what it must be.

ghost use Rattle.std.specs.Prelude.{◌≡◌, ◌≢◌, ◌≤◌, ◌==◌, ◌+◌, IfSome, IsSome, None, length, take, drop, filter};

/// The first line in which a text differs from what it must be. A line has its line feed; one that isn't there any
/// more, since its text has ended, is empty.
#[derive(Clone, Copy, PartialEq, Eq, Debug)]
pub struct Difference<'a> {
    /// The number of the line, counted from 1.
    pub number: usize,
    /// How many bytes stand before the line, in both texts.
    pub start: usize,
    /// The line that must stand there.
    pub wanted: &'a [u8],
    /// The line that does.
    pub written: &'a [u8],
}

/// How many bytes two texts have in common, from the first on.
fn common_front(wanted: &[u8], written: &[u8]) -> usize
    ensures within { result ≤ length wanted.now }
    ensures within_other { result ≤ length written.now }
    ensures same { take result wanted.now ≡ take result written.now }
{
    let shorter = wanted.len().min(written.len());
    for at in 0..shorter {
        if wanted[at] != written[at] {
            return at;
        }
    }
    shorter
}

/// Where the line begins in which these bytes end.
fn line_start(bytes: &[u8]) -> usize
    ensures { result ≤ length bytes.now }
{
    let mut start = 0usize;
    for at in 0..bytes.len() {
        if bytes[at] == b'\n' {
            start = at + 1;
        }
    }
    start
}

/// The line at the front of a text, with its line feed.
fn first_line(text: &[u8]) -> &[u8]
    ensures { result.now ≡ take (length result.now) text.entry.now }
{
    for at in 0..text.len() {
        if text[at] == b'\n' {
            return &text[..at + 1];
        }
    }
    text
}

/// The number of the line that begins after these bytes.
fn line_number(front: &[u8]) -> usize
    ensures { result ≡ length (filter (λ byte. byte == 10) front.now) + 1 }
{
    let mut number = 1usize;
    for at in 0..front.len() {
        if front[at] == b'\n' {
            number += 1;
        }
    }
    number
}

impl<'a> Difference<'a> {
    /// The first line in which a text differs from what it must be, if there is one.
    pub fn of(wanted: &'a [u8], written: &'a [u8]) -> Option<Difference<'a>>
        ensures none { result ≡ None → wanted.entry.now ≡ written.entry.now }
        ensures some { IsSome result → wanted.entry.now ≢ written.entry.now }
        ensures front { IfSome result (λ found.
            take found.start wanted.entry.now ≡ take found.start written.entry.now) }
        ensures number { IfSome result (λ found.
            found.number ≡ length (filter (λ byte. byte == 10) (take found.start wanted.entry.now)) + 1) }
        ensures wanted { IfSome result (λ found.
            found.wanted.now ≡ take (length found.wanted.now) (drop found.start wanted.entry.now)) }
        ensures written { IfSome result (λ found.
            found.written.now ≡ take (length found.written.now) (drop found.start written.entry.now)) }
    {
        if wanted == written {
            return None;
        }
        let common = common_front(wanted, written);
        let start = line_start(&wanted[..common]);
        Some(Difference {
            number: line_number(&wanted[..start]),
            start,
            wanted: first_line(&wanted[start..]),
            written: first_line(&written[start..]),
        })
    }
}
