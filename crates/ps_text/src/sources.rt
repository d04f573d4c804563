//! A text that was read, with its lines.

ghost use Rattle.std.specs.Prelude.{◌≡◌, ◌+◌, ◌≤◌, length, option_map, Some, None, IfOk, IfErr, IfSome, OnOk, Err};
ghost use Rattle.std.specs.Str.{IsUtf8};
ghost use Rattle.ps_model.specs.declared.faults.Fault.{Fault as TheFault};
ghost use Rattle.ps_model.specs.declared.limits.TheConstants.{TEXT_LIMIT};
ghost use Rattle.ps_model.specs.text.LineNumbers.{line_at, HasLine};
ghost use Rattle.ps_model.specs.text.Lines.{lines_of, is_blank_line};
ghost use Rattle.ps_model.specs.text.TextFaults.{text_fault, line_of_place};
ghost use Rattle.ps_text.specs.Rows.{shown, IsRow};
ghost use Rattle.ps_text.specs.WordViews.{taken_of, span_of, IsSliceOf};

use crate::cutting::{Word, word_at};
use crate::kinds::is_blank_text;
use crate::rows::{Row, table};
use ps_model::{Fault, FaultKind, Refusal, Section, TEXT_LIMIT};
use std::alloc::Global;
use std::marker::Model;

/// The text of a game. Contracts see its bytes.
#[derive(Drop)]
pub struct Source {
    text: String,
    rows: Vec<Row>,
}

impl Model for Source {
    ghost use Rattle.std.specs.Prelude.{List, ℕ, string_bytes};
    ghost use Rattle.ps_text.specs.Rows.{IsTable};

    ghost Value = { List ℕ };

    ghost view = { λ s. string_bytes s.text };

    ghost invariant = { λ s. IsTable (string_bytes s.text) s.rows.items };
}

/// The number of the line that a place of a text stands in.
fn line_of(bytes: &[u8], place: usize) -> u32
    requires short { length bytes.now ≤ TEXT_LIMIT }
    requires within { place ≤ length bytes.now }
    ensures { result ≡ line_of_place bytes.now place }
{
    let feeds = bytes[..place].iter().filter(|byte| **byte == b'\n').count();
    feeds as u32 + 1
}

/// The bytes as a text, or why they are refused.
fn checked(bytes: &[u8]) -> Result<&str, Fault>
    ensures text { IfOk result (λ text. text.now ≡ bytes.now) }
    ensures short { OnOk result (length bytes.now ≤ TEXT_LIMIT) }
    ensures fine { OnOk result (text_fault bytes.now ≡ None) }
    ensures refused { IfErr result (λ fault. text_fault bytes.now ≡ Some fault) }
{
    if bytes.len() > TEXT_LIMIT {
        return Err(Fault {
            kind: FaultKind::TooLong,
            line: 1,
        });
    }
    match std::str::from_utf8(bytes) {
        Ok(text) => Ok(text),
        Err(error) => Err(Fault {
            kind: FaultKind::NotUtf8,
            line: line_of(bytes, error.valid_up_to()),
        }),
    }
}

impl Source {
    /// Reads a text: keeps its bytes, and makes the table of its lines, in time linear in the text.
    ///
    /// `Refused` with `TooLong` at line 1 if there are more than `TEXT_LIMIT` bytes; else with `NotUtf8` if they aren't
    /// UTF-8, at the line of the first byte that belongs to no whole character; lines are counted from 1, by line
    /// feeds. `Memory` if there is no room for two copies of the text and the table.
    pub fn read(alloc: Global, bytes: &[u8]) -> Result<Source, Refusal>
        ensures text { IfOk result (λ source. source ≡ bytes.now) }
        ensures utf8 { IfOk result (λ source. IsUtf8 source) }
        ensures short { IfOk result (λ source. length source ≤ TEXT_LIMIT) }
        ensures fine { OnOk result (text_fault bytes.now ≡ None) }
        ensures refused { IfErr result (λ error. (fault : TheFault) → error ≡ Refusal.Refused fault →
            text_fault bytes.now ≡ Some fault) }
        ensures refuses { (fault : TheFault) → text_fault bytes.now ≡ Some fault →
            result ≡ Err (Refusal.Refused fault) }
    {
        let text = checked(bytes)?;
        let rows = table(alloc, text)?;
        let text = String::from_str(alloc, text)?;
        Ok(Source { text, rows })
    }

    /// The row of a line.
    pub(crate) fn row(&self, line: u32) -> &Row
        requires { HasLine self.now line }
        ensures line { shown self.now result.now ≡ line_at self.now line }
        ensures row { IsRow self.now result.now }
        ensures short { length self.now ≤ TEXT_LIMIT }
    {
        &self.rows[line as usize - 1]
    }

    /// How many lines there are, at least 1: an empty text has one empty line. A line feed at the end begins no further
    /// line.
    pub fn lines(&self) -> u32
        ensures lines { result ≡ length (lines_of self.now) }
        ensures some { 1 ≤ result }
        ensures few { result ≤ TEXT_LIMIT + 1 }
    {
        self.rows.len() as u32
    }

    /// Whether the line, from 1 to `lines()`, is there. A line that lies in a comment and has only blanks besides
    /// isn't, and neither is a line made of `=` and blanks alone.
    pub fn is_there(&self, line: u32) -> bool
        requires { HasLine self.now line }
        ensures { result ≡ (line_at self.now line).is_there }
    {
        self.row(line).is_there
    }

    /// Whether the line, from 1 to `lines()`, has no word.
    pub fn is_blank_line(&self, line: u32) -> bool
        requires { HasLine self.now line }
        ensures { result ≡ is_blank_line (line_at self.now line) }
    {
        is_blank_text(self.visible(line).as_bytes())
    }

    /// The section that the line, from 1 to `lines()`, stands in: that of the last header at or above it, or else the
    /// prelude.
    pub fn section(&self, line: u32) -> Section
        requires { HasLine self.now line }
        ensures { result ≡ (line_at self.now line).section }
    {
        self.row(line).section
    }

    /// Whether the line, from 1 to `lines()`, is a header: one word, and that the name of a section in either case.
    pub fn is_header(&self, line: u32) -> bool
        requires { HasLine self.now line }
        ensures { result ≡ (line_at self.now line).is_header }
    {
        self.row(line).is_header
    }

    /// The text of the line, from 1 to `lines()`, that is taken as it stands, if it has one, without the blanks at its
    /// ends. It stands after `title`, `author` or `homepage` as the first word of a line above all sections, up to the
    /// first `(`. It stands after `message` as the first word of a line of LEVELS. It stands after the first `message`
    /// after the `->` of a line of RULES. It may be empty.
    pub fn rest(&self, line: u32) -> Option<Word<'_>>
        requires { HasLine self.now line }
        ensures taken { option_map taken_of result ≡ (line_at self.now line).taken }
        ensures line { IfSome result (λ word. word.span.line ≡ line) }
        ensures text { IfSome result (IsSliceOf self.now) }
        ensures end { IfSome result (λ word. word.span.end ≡ word.span.start + length word.text.now) }
    {
        let row = self.row(line);
        let Some(range) = row.taken else {
            return None;
        };
        let start = row.start as usize;
        let end = start + row.visible.len();
        Some(word_at(&self.text[start..end], row, range))
    }

    /// The bytes of the line, from 1 to `lines()`, with blanks in place of comments and of a text that is taken as it
    /// stands.
    pub fn visible(&self, line: u32) -> &str
        requires { HasLine self.now line }
        ensures { result.now ≡ (line_at self.now line).bytes }
    {
        self.row(line).visible.as_str()
    }
}
