//! The words of a line.

ghost use Rattle.std.specs.Prelude.{◌≡◌, ◌+◌, ◌≤◌, ◌<◌, length, map, slice_range, IfOk, IfSome, All};
ghost use Rattle.std.specs.Str.{IsUtf8, IsCharBoundary};
ghost use Rattle.ps_model.specs.declared.limits.TheConstants.{TEXT_LIMIT};
ghost use Rattle.ps_model.specs.text.LineNumbers.{line_at, HasLine};
ghost use Rattle.ps_model.specs.text.RuleWords.{words_under};
ghost use Rattle.ps_text.specs.WordRanges.{words_behind, words_found, IsWordRange};
ghost use Rattle.ps_text.specs.TakenRanges.{IsTextRange};
ghost use Rattle.ps_text.specs.WordViews.{span_of, text_of, span_at, texts_under, IsSliceOf, AreRisingSpans};

use crate::rows::Row;
use crate::rule_scan::{first_rule_word, next_rule_word};
use crate::scan::{ByteRange, next_word};
use crate::sources::Source;
use ps_model::{Cut, Memory, Span};
use std::alloc::Global;

/// A part of a text: its bytes, and where they stand.
#[derive(Clone, Copy, Debug)]
pub struct Word<'a> {
    text: &'a str,
    span: Span,
}

impl<'a> Word<'a> {
    /// The word.
    pub fn text(&self) -> &'a str
        ensures { result.now ≡ self.now.text.now }
    {
        self.text
    }

    /// Its line, from 1, and its bytes in the text.
    pub fn span(&self) -> Span
        ensures { result ≡ self.now.span }
    {
        self.span
    }
}

/// The word at a range of a line.
pub fn word_at<'a>(line: &'a str, row: &Row, range: ByteRange) -> Word<'a>
    requires range { IsTextRange line.now range }
    requires short { row.now.start + length line.now ≤ TEXT_LIMIT }
    ensures text { result.text.now ≡ slice_range line.entry.now range.start range.end }
    ensures line { result.span.line ≡ row.now.number }
    ensures start { result.span.start ≡ row.now.start + range.start }
    ensures end { result.span.end ≡ row.now.start + range.end }
{
    Word {
        text: &line[range.start..range.end],
        span: Span {
            line: row.number,
            start: row.start + range.start as u32,
            end: row.start + range.end as u32,
        },
    }
}

/// The first word of a line.
fn first_under(line: &[u8], cut: Cut) -> Option<ByteRange>
    requires { IsUtf8 line.now }
    ensures words { words_under cut line.now ≡ words_found cut line.now result }
    ensures range { IfSome result (IsWordRange line.now 0) }
{
    match cut {
        Cut::Blanks | Cut::Legend | Cut::Layers => next_word(line, cut, 0),
        Cut::Rule => first_rule_word(line),
    }
}

/// The first word after a place, where a word ends.
fn next_under(line: &[u8], cut: Cut, from: usize) -> Option<ByteRange>
    requires utf8 { IsUtf8 line.now }
    requires cuttable { IsCharBoundary line.now from }
    ensures words { words_behind cut line.now from ≡ words_found cut line.now result }
    ensures range { IfSome result (IsWordRange line.now from) }
{
    match cut {
        Cut::Blanks | Cut::Legend | Cut::Layers => next_word(line, cut, from),
        Cut::Rule => next_rule_word(line, from),
    }
}

/// The words of a line, from 1 to `source.lines()`, in order: its longest runs of bytes without one that parts words,
/// which are blanks and, under `Cut::Layers`, commas; under `Cut::Legend` each `=` is a word by itself, and `Cut::Rule`
/// cuts as rules are cut. Comments part words, and so does a text that is taken as it stands. `Memory` if there is no
/// room for their list.
pub fn words<'a>(
    alloc: Global,
    source: &'a Source,
    line: u32,
    cut: Cut,
) -> Result<Vec<Word<'a>>, Memory>
    requires { HasLine source.now line }
    ensures texts { IfOk result (λ words. map text_of words.items ≡ texts_under cut (line_at source.now line).bytes) }
    ensures hold { IfOk result (λ words. All (λ text. 0 < length text) (map text_of words.items)) }
    ensures spans { IfOk result (λ words. map span_of words.items
        ≡ map (span_at (line_at source.now line)) (words_under cut (line_at source.now line).bytes)) }
    ensures slices { IfOk result (λ words. All (IsSliceOf source.now) words.items) }
    ensures rising { IfOk result (λ words. AreRisingSpans (line_at source.now line).start (length source.now)
        (map span_of words.items)) }
{
    let row = source.row(line);
    let text = row.visible.as_str();
    let mut words = Vec::new(alloc);
    let mut next = first_under(text.as_bytes(), cut);
    while let Some(range) = next {
        words.push(word_at(text, row, range))?;
        next = next_under(text.as_bytes(), cut, range.end);
    }
    Ok(words)
}
