//! Words that authors write in place of others.

use crate::near::is_near;
use crate::signs::is_one_of;
use ps_text::Word;

/// What is written for the arrow of a rule.
const LIKE_ARROWS: [&str; 12] = [
    "=>",
    "=",
    "-",
    "==>",
    "--",
    "~>",
    "\u{2192}",
    "\u{21d2}",
    "\u{2013}",
    "\u{2014}",
    "\u{2013}>",
    "\u{2014}>",
];

/// What is written for `startloop` and `endloop`, alone or before another word.
const LIKE_LOOPS: [&str; 8] = [
    "loop",
    "start",
    "end",
    "begin",
    "start_loop",
    "end_loop",
    "loopstart",
    "loopend",
];

/// What is written before `->` where an arrow is too long.
const BEFORE_ARROWS: [&str; 6] = ["-", "--", "---", "=", "<", "<-"];

/// What is written for the brackets of a rule.
const LIKE_BRACKETS: [&str; 8] = [
    "{", "}", "\u{ff3b}", "\u{ff3d}", "\u{3010}", "\u{3011}", "\u{27e6}", "\u{27e7}",
];

/// Key words of rules that stand in no cell, but for directions, brackets, bars and arrow.
const NOT_IN_CELLS: [&str; 12] = [
    "late",
    "startloop",
    "endloop",
    "cancel",
    "restart",
    "again",
    "checkpoint",
    "win",
    "message",
    "random",
    "randomdir",
    "rigid",
];

/// The word that a message of LEVELS begins with.
const MESSAGE: &str = "message";

/// Whether a word begins with `message` and goes on with something other than a letter.
fn begins_message(word: &[u8]) -> bool {
    if word.len() <= MESSAGE.len() {
        return false;
    }
    word[..MESSAGE.len()].eq_ignore_ascii_case(MESSAGE.as_bytes())
        && !word[MESSAGE.len()].is_ascii_alphabetic()
}

/// Whether a word is written much like `message`, or goes on after that.
pub fn is_like_message(word: &str) -> bool {
    is_near(word, MESSAGE) || begins_message(word.as_bytes())
}

/// How many letters a word has at least by which a line is meant as a text.
const LEAST_LETTERS: usize = 3;

/// Whether three letters that follow each other are one, as in a row of a level and in no word of a text.
fn has_run(word: &[u8]) -> bool {
    for at in 2..word.len() {
        if word[at] == word[at - 1] && word[at] == word[at - 2] {
            return true;
        }
    }
    false
}

/// Whether a byte may stand in a word of a text: a letter, a part of a character that isn't ASCII, an apostrophe or a
/// hyphen.
fn is_of_text(byte: u8) -> bool {
    byte.is_ascii_alphabetic() || byte >= 128 || byte == b'\'' || byte == b'-'
}

/// A word without the mark that it may end with.
fn without_mark(word: &[u8]) -> &[u8] {
    match word.split_last() {
        Some((b'.' | b',' | b':' | b';' | b'!' | b'?', front)) => front,
        _ => word,
    }
}

/// Whether a word is one of a text, and no row of a level.
fn is_text_word(word: &[u8]) -> bool {
    let word = without_mark(word);
    word.len() >= LEAST_LETTERS && !has_run(word) && word.iter().all(|byte| is_of_text(*byte))
}

/// Whether a line of these words is meant as a text: it begins with a letter or a digit, and one of its words is of a
/// text.
pub fn begins_text(word: &str, behind: &[Word<'_>]) -> bool {
    let bytes = word.as_bytes();
    let Some(first) = bytes.first() else {
        return false;
    };
    if !first.is_ascii_alphanumeric() && *first < 128 {
        return false;
    }
    is_text_word(bytes)
        || behind
            .iter()
            .any(|other| is_text_word(other.text().as_bytes()))
}

/// Whether a word is written much like `startloop` or `endloop`, or in place of one of them.
pub fn is_like_loop(word: &str) -> bool {
    is_near(word, "startloop") || is_near(word, "endloop") || is_one_of(&LIKE_LOOPS, word)
}

/// Whether a word is written in place of `->`.
pub fn is_like_arrow(word: &str) -> bool {
    is_one_of(&LIKE_ARROWS, word)
}

/// Whether a word is the front of an arrow that is too long, of which `->` is the end.
pub fn is_before_arrow(word: &str) -> bool {
    is_one_of(&BEFORE_ARROWS, word)
}

/// Whether a word begins or ends with what is written in place of `[` and `]`.
pub fn is_like_bracket(word: &str) -> bool {
    for bracket in &LIKE_BRACKETS {
        if word.starts_with(*bracket) || word.ends_with(*bracket) {
            return true;
        }
    }
    false
}

/// Whether a word of a rule may stand in a cell, or is a sound.
pub fn stands_in_cells(word: &str) -> bool {
    !is_one_of(&NOT_IN_CELLS, word)
}
