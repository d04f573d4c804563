//! Names and key words that are written much like a word.

ghost use Rattle.std.specs.Prelude.{◌≡◌, ◌≤◌, drop, length, take, true, IfSome};
ghost use Rattle.std.specs.List.{IsAmong};
ghost use Rattle.ps_model.specs.text.Lines.{folded};
ghost use Rattle.ps_facts.specs.KeyWords.{is_plain_key_word};
ghost use Rattle.ps_facts.specs.Near.{AreWithinOne, AreWithinTwo, IsNear};

use crate::key_words::{is_plain_key_word, key_words};
use crate::names::Named;

/// How far two words may be apart that are much alike, by edits: a byte put in, left out or changed.
#[derive(Clone, Copy)]
enum Distance {
    One,
    Two,
}

/// How many bytes two words begin with both, their ASCII letters in either case.
fn same_front(a: &[u8], b: &[u8]) -> usize
    ensures first { result ≤ length a.now }
    ensures second { result ≤ length b.now }
    ensures same { take result (folded a.now) ≡ take result (folded b.now) }
{
    let shorter = a.len().min(b.len());
    for at in 0..shorter {
        if a[at].to_ascii_lowercase() != b[at].to_ascii_lowercase() {
            return at;
        }
    }
    shorter
}

/// The bytes after the first `count`.
fn behind(bytes: &[u8], count: usize) -> &[u8]
    requires { count ≤ length bytes.now }
    ensures { result.now ≡ drop count bytes.now }
{
    &bytes[count..]
}

/// The bytes after the first; of none, none.
fn behind_first(bytes: &[u8]) -> &[u8]
    ensures { result.now ≡ drop 1 bytes.now }
{
    if bytes.is_empty() {
        return bytes;
    }
    behind(bytes, 1)
}

/// Whether an edit at most makes one of the other.
pub fn are_within_one(word: &[u8], other: &[u8]) -> bool
    ensures { result ≡ true → AreWithinOne (folded word.now) (folded other.now) }
{
    let front = same_front(word, other);
    let rest = behind(word, front);
    let other_rest = behind(other, front);
    if behind_first(rest).eq_ignore_ascii_case(behind_first(other_rest)) {
        return true;
    }
    if behind_first(rest).eq_ignore_ascii_case(other_rest) {
        return true;
    }
    rest.eq_ignore_ascii_case(behind_first(other_rest))
}

/// Whether two edits at most make one of the other.
pub fn are_within_two(word: &[u8], other: &[u8]) -> bool
    ensures { result ≡ true → AreWithinTwo (folded word.now) (folded other.now) }
{
    let front = same_front(word, other);
    let rest = behind(word, front);
    let other_rest = behind(other, front);
    if are_within_one(behind_first(rest), behind_first(other_rest)) {
        return true;
    }
    if are_within_one(behind_first(rest), other_rest) {
        return true;
    }
    are_within_one(rest, behind_first(other_rest))
}

/// How many bytes a word has at least that is compared with names which one edit makes of it, and two.
const LEAST_FOR_ONE: usize = 3;

const LEAST_FOR_TWO: usize = 5;

/// Whether one edit at most makes a name of a word that is long enough for that.
fn is_one_away(word: &str, name: &str) -> bool
    ensures { result ≡ true → IsNear word.now name.now }
{
    if word.len() < LEAST_FOR_ONE {
        return false;
    }
    are_within_one(word.as_bytes(), name.as_bytes())
}

/// Whether two edits at most make a name of a word that is long enough for that.
fn is_two_away(word: &str, name: &str) -> bool
    ensures { result ≡ true → IsNear word.now name.now }
{
    if word.len() < LEAST_FOR_TWO {
        return false;
    }
    are_within_two(word.as_bytes(), name.as_bytes())
}

/// Whether one edit at most makes a name of a word of three bytes at least, or two edits of a word of five.
pub fn is_near(word: &str, name: &str) -> bool
    ensures { result ≡ true → IsNear word.now name.now }
{
    is_one_away(word, name) || is_two_away(word, name)
}

/// Whether a name is so near to a word.
fn is_within(distance: Distance, word: &str, name: &str) -> bool
    ensures { result ≡ true → IsNear word.now name.now }
{
    match distance {
        Distance::One => is_one_away(word, name),
        Distance::Two => is_two_away(word, name),
    }
}

/// The first of the names that is so near to a word.
fn first_within<'a>(distance: Distance, names: &[Named<'a>], word: &str) -> Option<Named<'a>>
    ensures among { IfSome result (IsAmong names.now) }
    ensures near { IfSome result (λ named. IsNear word.now named.name.now) }
{
    for at in 0..names.len() {
        let named = names[at];
        if is_within(distance, word, named.name) {
            return Some(named);
        }
    }
    None
}

/// The first of the names that one edit makes of a word of three bytes at least, or else two of a word of five.
pub fn nearest<'a>(names: &[Named<'a>], word: &str) -> Option<Named<'a>>
    ensures among { IfSome result (IsAmong names.now) }
    ensures near { IfSome result (λ named. IsNear word.now named.name.now) }
{
    let nearest = first_within(Distance::One, names, word);
    if nearest.is_some() {
        return nearest;
    }
    first_within(Distance::Two, names, word)
}

/// The first of the key words of rules that is so near to a word.
fn key_word_within(distance: Distance, word: &str) -> Option<&'static str>
    ensures key { IfSome result (λ key. is_plain_key_word key.now ≡ true) }
    ensures near { IfSome result (λ key. IsNear word.now key.now) }
{
    for key in key_words() {
        if is_plain_key_word(key) && is_within(distance, word, key) {
            return Some(key);
        }
    }
    None
}

/// The first of the key words of rules that one edit makes of a word of three bytes at least. If there is none, the
/// first that two edits make of one of five.
pub fn nearest_key_word(word: &str) -> Option<&'static str>
    ensures key { IfSome result (λ key. is_plain_key_word key.now ≡ true) }
    ensures near { IfSome result (λ key. IsNear word.now key.now) }
{
    let nearest = key_word_within(Distance::One, word);
    if nearest.is_some() {
        return nearest;
    }
    key_word_within(Distance::Two, word)
}
