//! Where a line has a text that is taken as it stands.

ghost use Rattle.std.specs.Prelude.{◌≡◌, ◌+◌, ◌≤◌, ◌==◌, not, ◌∷◌, [], length, drop, take, codes, option_map, find};
ghost use Rattle.std.specs.Prelude.{Some, None, IfSome, slice_range};
ghost use Rattle.std.specs.List.{prefix_len, list_any};
ghost use Rattle.std.specs.Str.{IsUtf8, IsCharBoundary, bytes_eq};
ghost use Rattle.ps_model.specs.text.Lines as lines;
ghost use Rattle.ps_model.specs.text.RuleWords.{rule_words_in};
ghost use Rattle.ps_text.specs.WordRanges.{rule_words_behind};
ghost use Rattle.ps_text.specs.TakenRanges.{words_past, IsTextStart};

use crate::headers::is_word;
use crate::rule_scan::{first_rule_word, next_rule_word};
use crate::scan::next_word;
use ps_model::{Cut, Section};

/// Whether the word begins a text in a line of the prelude.
fn is_title_word(word: &[u8]) -> bool
    ensures { result ≡ list_any (bytes_eq (lines.folded word.now))
        (codes "title" ∷ codes "author" ∷ codes "homepage" ∷ []) }
{
    is_word(word, b"title") || is_word(word, b"author") || is_word(word, b"homepage")
}

/// Whether the word begins a text in a line of LEVELS or RULES.
fn is_message_word(word: &[u8]) -> bool
    ensures { result ≡ list_any (bytes_eq (lines.folded word.now)) (codes "message" ∷ []) }
{
    is_word(word, b"message")
}

/// Whether the word parts the two sides of a rule.
fn is_arrow_word(word: &[u8]) -> bool
    ensures { result ≡ list_any (bytes_eq (lines.folded word.now)) (codes "->" ∷ []) }
{
    is_word(word, b"->")
}

/// Where a text begins in a line of the prelude.
fn title_end(plain: &[u8]) -> Option<usize>
    requires { IsUtf8 plain.now }
    ensures place { result ≡ lines.end_of_first plain.now (codes "title" ∷ codes "author" ∷ codes "homepage" ∷ []) }
    ensures start { IfSome result (IsTextStart plain.now) }
{
    let Some(first) = next_word(plain, Cut::Blanks, 0) else {
        return None;
    };
    if !is_title_word(&plain[first.start..first.end]) {
        return None;
    }
    Some(first.end)
}

/// Where a text begins in a line of LEVELS.
fn message_end(plain: &[u8]) -> Option<usize>
    requires { IsUtf8 plain.now }
    ensures place { result ≡ lines.end_of_first plain.now (codes "message" ∷ []) }
    ensures start { IfSome result (IsTextStart plain.now) }
{
    let Some(first) = next_word(plain, Cut::Blanks, 0) else {
        return None;
    };
    if !is_message_word(&plain[first.start..first.end]) {
        return None;
    }
    Some(first.end)
}

/// Where the first `->` of a line of RULES ends.
fn arrow_end(plain: &[u8]) -> Option<usize>
    requires { IsUtf8 plain.now }
    ensures words { lines.behind_arrow plain.now (rule_words_in plain.now) ≡ words_past plain.now result }
    ensures cuttable { IfSome result (IsCharBoundary plain.now) }
{
    let mut next = first_rule_word(plain);
    while let Some(word) = next {
        if is_arrow_word(&plain[word.start..word.end]) {
            return Some(word.end);
        }
        next = next_rule_word(plain, word.end);
    }
    None
}

/// Where the first `message` after a place of a line of RULES ends.
fn message_end_behind(plain: &[u8], from: usize) -> Option<usize>
    requires utf8 { IsUtf8 plain.now }
    requires cuttable { IsCharBoundary plain.now from }
    ensures place { result ≡ lines.end_of_word
        (find (lines.is_word plain.now (codes "message" ∷ [])) (rule_words_behind plain.now from)) }
    ensures start { IfSome result (IsTextStart plain.now) }
{
    let mut at = from;
    while let Some(word) = next_rule_word(plain, at) {
        if is_message_word(&plain[word.start..word.end]) {
            return Some(word.end);
        }
        at = word.end;
    }
    None
}

/// Where a text begins in a line of RULES.
fn command_end(plain: &[u8]) -> Option<usize>
    requires { IsUtf8 plain.now }
    ensures place { result ≡ lines.end_of_word
        (find (lines.is_word plain.now (codes "message" ∷ []))
        (lines.behind_arrow plain.now (rule_words_in plain.now))) }
    ensures start { IfSome result (IsTextStart plain.now) }
{
    let Some(arrow) = arrow_end(plain) else {
        return None;
    };
    message_end_behind(plain, arrow)
}

/// Where a text that is taken as it stands begins in a line of that section, whose comments are blanks.
pub fn text_start(section: Section, plain: &[u8]) -> Option<usize>
    requires { IsUtf8 plain.now }
    ensures place { result ≡ lines.text_place section plain.now }
    ensures start { IfSome result (IsTextStart plain.now) }
{
    match section {
        Section::Prelude => title_end(plain),
        Section::Levels => message_end(plain),
        Section::Rules => command_end(plain),
        Section::Objects | Section::Legend | Section::Sounds | Section::Layers | Section::Wins =>
            None,
    }
}
