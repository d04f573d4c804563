//! The scan of a line of RULES for its words.

ghost use Rattle.std.specs.Prelude.{◌≡◌, ◌+◌, ◌<◌, ◌≤◌, ◌||◌, ◌&&◌, ◌==◌, true, false, not, ◌∷◌, length, drop, None};
ghost use Rattle.std.specs.Prelude.{slice_index, IfSome};
ghost use Rattle.std.specs.Str.{IsUtf8, IsCharBoundary};
ghost use Rattle.ps_model.specs.text.Words.{is_blank};
ghost use Rattle.ps_model.specs.text.RuleWords as rules;
ghost use Rattle.ps_text.specs.WordRanges.{rule_words_behind, rule_words_with, IsSolid, IsArrow, IsWordRange};

use crate::scan::{ByteRange, is_blank_byte, past_parting};
use ps_model::Cut;

/// Whether `->` stands at the place.
fn is_arrow_at(line: &[u8], at: usize) -> bool
    requires { at < length line.now }
    ensures arrow { result ≡ rules.begins_arrow (drop at line.now) }
    ensures bytes { result ≡ true → IsArrow line.now at }
{
    if at + 1 < line.len() {
        return line[at] == b'-' && line[at + 1] == b'>';
    }
    false
}

/// Whether the byte is a word by itself, where a word is open before it or not.
fn is_mark(byte: u8, within: bool) -> bool
    ensures { result ≡ rules.is_own_word within byte }
{
    let is_sign = byte == b'>' || byte == b'<' || byte == b'^';
    byte == b'[' || byte == b']' || byte == b'|' || (is_sign && !within)
}

/// How long a word is that stands by itself at the place, where a word is open before it or not; 0 where none does.
fn own_len(line: &[u8], at: usize, within: bool) -> usize
    requires utf8 { IsUtf8 line.now }
    requires there { at < length line.now }
    ensures own { result ≡ rules.own_length within (drop at line.now) }
    ensures cuttable { 0 < result → IsCharBoundary line.now (at + result) }
    ensures solid { IsSolid line.now at (at + result) }
{
    if is_arrow_at(line, at) {
        return 2;
    }
    if is_mark(line[at], within) {
        return 1;
    }
    0
}

/// Whether the byte is a `+`.
fn is_plus(byte: u8) -> bool
    ensures { result ≡ (byte == 43) }
{
    byte == b'+'
}

/// Where the run that begins at `start` ends.
fn rule_run_end(line: &[u8], start: usize) -> usize
    requires utf8 { IsUtf8 line.now }
    requires holds { start < length line.now }
    requires in_run { is_blank (slice_index line.now start) ≡ false }
    requires no_word { rules.own_length false (drop start line.now) ≡ 0 }
    ensures words { rule_words_behind line.now start ≡ (start, result) ∷ rule_words_behind line.now result }
    ensures behind { start < result }
    ensures cuttable { IsCharBoundary line.now result }
    ensures solid { IsSolid line.now start result }
{
    for at in start + 1..line.len() {
        if is_blank_byte(line[at]) {
            return at;
        }
        if own_len(line, at, true) > 0 {
            return at;
        }
    }
    line.len()
}

/// The first word from `from` on, which stands between words, after the `+` of the line.
pub fn next_rule_word(line: &[u8], from: usize) -> Option<ByteRange>
    requires utf8 { IsUtf8 line.now }
    requires cuttable { IsCharBoundary line.now from }
    ensures words { rule_words_behind line.now from ≡ rule_words_with line.now result }
    ensures range { IfSome result (IsWordRange line.now from) }
{
    let start = past_parting(line, Cut::Blanks, from);
    if start == line.len() {
        return None;
    }
    let own = own_len(line, start, false);
    if own > 0 {
        let end = start + own;
        return Some(ByteRange { start, end });
    }
    let end = rule_run_end(line, start);
    Some(ByteRange { start, end })
}

/// The first word of the line.
pub fn first_rule_word(line: &[u8]) -> Option<ByteRange>
    requires { IsUtf8 line.now }
    ensures words { rules.rule_words_in line.now ≡ rule_words_with line.now result }
    ensures range { IfSome result (IsWordRange line.now 0) }
{
    let start = past_parting(line, Cut::Blanks, 0);
    if start == line.len() {
        return None;
    }
    if is_plus(line[start]) {
        let end = start + 1;
        return Some(ByteRange { start, end });
    }
    next_rule_word(line, start)
}
