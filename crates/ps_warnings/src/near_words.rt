//! Whether a word is written much like another.

ghost use Rattle.std.specs.Prelude.{◌≡◌, ◌≤◌, drop, length};
ghost use Rattle.ps_warnings.specs.NearWords.{common, are_apart, is_one_away, is_two_away, is_near};

/// How many bytes a word has at least that is compared with words which two edits make of it.
const LEAST_FOR_TWO: usize = 5;

/// How many bytes two words begin with both.
fn common(word: &[u8], other: &[u8]) -> usize
    ensures common { result ≡ common word.now other.now }
    ensures first { result ≤ length word.now }
    ensures second { result ≤ length other.now }
{
    let shorter = word.len().min(other.len());
    for at in 0..shorter {
        if word[at] != other[at] {
            return at;
        }
    }
    shorter
}

/// The bytes after the first `count`.
fn behind(bytes: &[u8], count: usize) -> &[u8]
    requires { count ≤ length bytes.now }
    ensures { result.now ≡ drop count bytes.now }
{
    &bytes[count..]
}

/// The bytes after the first; of none, none.
fn behind_first(bytes: &[u8]) -> &[u8]
    ensures { result.now ≡ drop 1 bytes.now }
{
    if bytes.is_empty() {
        return bytes;
    }
    behind(bytes, 1)
}

/// Whether the one is the other but for a first byte, which is another, or which one of them lacks.
fn are_apart(rest: &[u8], other: &[u8]) -> bool
    ensures { result ≡ are_apart rest.now other.now }
{
    let further = behind_first(rest);
    let other_further = behind_first(other);
    further == other_further || further == other || rest == other_further
}

/// Whether an edit at most makes one of the other: a byte put in, left out or changed.
fn is_one_away(word: &[u8], other: &[u8]) -> bool
    ensures { result ≡ is_one_away word.now other.now }
{
    let at = common(word, other);
    are_apart(behind(word, at), behind(other, at))
}

/// Whether two edits at most do.
fn is_two_away(word: &[u8], other: &[u8]) -> bool
    ensures { result ≡ is_two_away word.now other.now }
{
    let at = common(word, other);
    let rest = behind(word, at);
    let other_rest = behind(other, at);
    let further = behind_first(rest);
    let other_further = behind_first(other_rest);
    is_one_away(further, other_further)
        || is_one_away(further, other_rest)
        || is_one_away(rest, other_further)
}

/// Whether a word is written much like another: an edit at most makes one of the other, or two, if it is long enough
/// for that.
pub fn is_near(word: &str, other: &str) -> bool
    ensures { result ≡ is_near word.now other.now }
{
    is_one_away(word.as_bytes(), other.as_bytes())
        || (word.len() >= LEAST_FOR_TWO && is_two_away(word.as_bytes(), other.as_bytes()))
}
