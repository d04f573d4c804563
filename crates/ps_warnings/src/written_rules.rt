//! Lines of RULES by their words.

ghost use Rattle.std.specs.Prelude.{◌≡◌, IfOk, OnOk, drop, map};
ghost use Rattle.ps_model.specs.text.LineNumbers.{HasLine, line_at};
ghost use Rattle.ps_model.specs.text.Lines.{taken_bytes};
ghost use Rattle.ps_text.specs.WordViews.{text_of};
ghost use Rattle.ps_warnings.specs.RepeatedRules.{group_with, is_joined, is_same_rule, own_words, same_words, twin_of};
ghost use Rattle.ps_warnings.specs.RepeatedRules.{written_rule};
ghost use Rattle.ps_warnings.specs.RulesSeen.{rule_seen, rules_seen};

use crate::first_words::first_of;
use ps_model::{Cut, Memory};
use ps_text::{Source, Word, same_name, words};
use std::alloc::Global;

/// A line of RULES.
pub struct WrittenRule<'a> {
    pub number: u32,
    pub words: Vec<Word<'a>>,
    /// The text of its message, if it has one.
    pub message: &'a str,
}

/// Written out: an owner of a rule calls this on each return path, and doesn't drop its parts there.
impl Drop for WrittenRule<'_> {
    fn drop(self) {
        let WrittenRule {
            number: _,
            words: _words,
            message: _,
        } = self;
    }
}

/// The text that a line takes as it stands; of a line that takes none, nothing.
fn taken_text<'a>(source: &'a Source, line: u32) -> &'a str
    requires { HasLine source.now line }
    ensures { result.now ≡ taken_bytes (line_at source.entry.now line) }
{
    let Some(text) = source.rest(line) else {
        return "";
    };
    text.text()
}

/// A line of RULES.
pub fn written_rule<'a>(
    alloc: Global,
    source: &'a Source,
    line: u32,
) -> Result<WrittenRule<'a>, Memory>
    requires { HasLine source.now line }
    ensures { IfOk result (λ rule. rule_seen rule ≡ written_rule (line_at source.entry.now line)) }
{
    let words = words(alloc, source, line, Cut::Rule)?;
    Ok(WrittenRule {
        number: line,
        words,
        message: taken_text(source, line),
    })
}

/// Whether `+` joins the rule of these words to the group above.
fn is_joined(words: &[Word<'_>]) -> bool
    ensures { result ≡ is_joined (map text_of words.now) }
{
    first_of(words) == "+"
}

/// The words after the first; of none, none.
#[tactic(auto, using(crate::proofs::RulesPassed::words_behind))]
fn behind_first<'w, 'a>(words: &'w [Word<'a>]) -> &'w [Word<'a>]
    ensures { map text_of result.now ≡ drop 1 (map text_of words.entry.now) }
{
    if words.is_empty() {
        return words;
    }
    &words[1..]
}

/// The words without that `+`.
fn own_words<'w, 'a>(words: &'w [Word<'a>]) -> &'w [Word<'a>]
    ensures { map text_of result.now ≡ own_words (map text_of words.entry.now) }
{
    if is_joined(words) {
        return behind_first(words);
    }
    words
}

/// Whether words are the same, letters folded.
fn same_words(words: &[Word<'_>], others: &[Word<'_>]) -> bool
    ensures { result ≡ same_words (map text_of words.now) (map text_of others.now) }
{
    if words.len() != others.len() {
        return false;
    }
    for at in 0..words.len() {
        if !same_name(words[at].text(), others[at].text()) {
            return false;
        }
    }
    true
}

/// Whether both lines say the same.
fn is_same_rule(rule: &WrittenRule<'_>, other: &WrittenRule<'_>) -> bool
    ensures { result ≡ is_same_rule (rule_seen rule.now) (rule_seen other.now) }
{
    same_words(own_words(&rule.words), own_words(&other.words)) && rule.message == other.message
}

/// The line of the first rule above that says the same as a rule, if there is one.
pub fn twin_of(rule: &WrittenRule<'_>, above: &[WrittenRule<'_>]) -> Option<u32>
    ensures { result ≡ twin_of (rule_seen rule.now) (rules_seen above.now) }
{
    for other in above {
        if is_same_rule(rule, other) {
            return Some(other.number);
        }
    }
    None
}

/// Makes the group above that of the next rule.
pub fn put_below<'a>(above: &mut Vec<WrittenRule<'a>>, rule: WrittenRule<'a>) -> Result<(), Memory>
    ensures { OnOk result (rules_seen above.new.items
        ≡ group_with (rules_seen above.old.items) (rule_seen rule.entry)) }
{
    if is_joined(&rule.words) {
        above.push(rule)?;
        return Ok(());
    }
    above.clear();
    above.push(rule)?;
    Ok(())
}
