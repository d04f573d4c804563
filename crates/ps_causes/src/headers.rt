//! Headers out of order, and sections that aren't there.

ghost use Rattle.std.specs.Prelude.{◌≡◌, ◌++◌, ◌&&◌, true, false, nat_le, ℕ, IfOk, IfSome, OnOk, map, string_bytes};
ghost use Rattle.ps_model.specs.text.LineNumbers.{HasLine, line_at};
ghost use Rattle.ps_model.specs.text.Lines.{lines_of};
ghost use Rattle.ps_model.specs.text.Sections.{rank, header_lines, has_section};
ghost use Rattle.ps_causes.specs.Causes.{AreThereBefore, IsToldAt, IsLaterHeader, begins, is_needed};
ghost use Rattle.ps_causes.specs.Clues.{IsClue, is_empty};
ghost use Rattle.ps_causes.specs.LikeHeaders.{AreLike, AreNearly, IsLikeHeaderOf, header_word, letter, letters};
ghost use Rattle.ps_causes.specs.LikeHeaders.{letters_of};
ghost use Rattle.ps_model.specs.text.Lines.{folded};
ghost use Rattle.ps_text.specs.WordViews.{text_of};

use crate::causes::{Cause, Clue};
use crate::comments::open_comment;
use crate::returns::lone_return;
use crate::zeros::first_zero;
use ps_facts::{are_within_one, are_within_two, rank, words_of};
use ps_model::{Cut, Memory, Section};
use ps_text::{Source, Word, same_name, words};
use std::alloc::Global;

/// Whether a line above a line is a header, of the same section or of a later one.
fn is_later_header(source: &Source, line: u32, above: u32) -> bool
    requires line { HasLine source.now line }
    requires above { HasLine source.now above }
    ensures { let other = line_at source.now above in
        result ≡ (other.is_header && nat_le (rank (line_at source.now line).section) (rank other.section)) }
{
    source.is_header(above) && rank(source.section(line)) <= rank(source.section(above))
}

/// The first line above a line that is a header, of the same section or of a later one.
fn header_above(source: &Source, line: u32) -> Option<u32>
    requires { HasLine source.now line }
    ensures { IfSome result (λ above. IsLaterHeader source.now line above) }
{
    for above in 1..line {
        if is_later_header(source, line, above) {
            return Some(above);
        }
    }
    None
}

/// The header that stands above a header and doesn't belong there.
pub fn late_cause<'a>(alloc: Global, source: &'a Source, line: u32) -> Result<Cause<'a>, Memory>
    requires { HasLine source.now line }
    ensures { IfOk result (IsToldAt source.now line) }
{
    let words = words_of(alloc, source, line)?;
    if words.is_empty() {
        return Ok(Cause::Untold);
    }
    let Some(above) = header_above(source, line) else {
        return Ok(Cause::Untold);
    };
    Ok(Cause::LateHeader {
        header: words[0],
        section: source.section(line),
        above,
        other: source.section(above),
    })
}

/// Whether a line begins the section.
fn begins(source: &Source, line: u32, section: Section) -> bool
    requires { HasLine source.now line }
    ensures { result ≡ begins section (line_at source.now line) }
{
    source.is_header(line) && rank(section) == rank(source.section(line))
}

/// Whether the text has the section.
pub fn has_section(source: &Source, section: Section) -> bool
    ensures { result ≡ has_section (header_lines (lines_of source.now)) section }
{
    for line in 1..source.lines() + 1 {
        if begins(source, line, section) {
            return true;
        }
    }
    false
}

/// The first of the sections that must be there and isn't.
fn missing_section(source: &Source) -> Option<Section>
    ensures missing { IfSome result (λ section. has_section (header_lines (lines_of source.now)) section ≡ false) }
    ensures needed { IfSome result (λ section. is_needed section ≡ true) }
    ensures first { IfSome result (AreThereBefore source.now) }
{
    if !has_section(source, Section::Objects) {
        return Some(Section::Objects);
    }
    if !has_section(source, Section::Layers) {
        return Some(Section::Layers);
    }
    if !has_section(source, Section::Levels) {
        return Some(Section::Levels);
    }
    None
}

/// How many words a line has at most that is written much like a header.
const MOST_WORDS: usize = 4;

/// The word of a section's header.
pub fn header_of(section: Section) -> &'static str
    ensures { result.now ≡ header_word section }
{
    match section {
        Section::Prelude => "",
        Section::Objects => "objects",
        Section::Legend => "legend",
        Section::Sounds => "sounds",
        Section::Layers => "collisionlayers",
        Section::Rules => "rules",
        Section::Wins => "winconditions",
        Section::Levels => "levels",
    }
}

/// Puts a byte last in lower case, if it is an ASCII letter.
fn push_letter(made: &mut String, byte: u8) -> Result<(), Memory>
    ensures { OnOk result (string_bytes made.new ≡ string_bytes made.old ++ letter byte) }
{
    if byte.is_ascii_alphabetic() {
        made.push(byte.to_ascii_lowercase() as char)?;
    }
    Ok(())
}

/// Puts the ASCII letters of a word last, in lower case.
fn push_letters(made: &mut String, word: &[u8]) -> Result<(), Memory>
    ensures { OnOk result (string_bytes made.new ≡ string_bytes made.old ++ letters word.now) }
{
    for at in 0..word.len() {
        push_letter(made, word[at])?;
    }
    Ok(())
}

/// The ASCII letters of words, one after the other, in lower case.
fn letters_of(alloc: Global, words: &[Word<'_>]) -> Result<String, Memory>
    ensures { IfOk result (λ made. string_bytes made ≡ letters_of (map text_of words.now)) }
{
    let mut made = String::new(alloc);
    for at in 0..words.len() {
        push_letters(&mut made, words[at].text().as_bytes())?;
    }
    Ok(made)
}

/// Whether a word is a header but for two neighbours, which stand the other way round.
fn are_swapped(word: &[u8], header: &[u8]) -> bool {
    if word.len() != header.len() {
        return false;
    }
    for at in 0..word.len() {
        if word[at] != header[at] {
            return at + 1 < word.len()
                && word[at] == header[at + 1]
                && word[at + 1] == header[at]
                && word[at + 2..].eq_ignore_ascii_case(&header[at + 2..]);
        }
    }
    false
}

/// How many letters a header has at least that is compared with words which two edits make of it.
const LONG_HEADER: usize = 12;

/// Whether one edit makes a word a header. Two edits may do where they swap neighbours, and in a long header.
fn are_nearly(word: &[u8], header: &[u8]) -> bool
    ensures { result ≡ true → AreNearly (folded word.now) (folded header.now) }
{
    if are_within_one(word, header) {
        return true;
    }
    if header.len() < LONG_HEADER && !are_swapped(word, header) {
        return false;
    }
    are_within_two(word, header)
}

/// Whether words are written much like a header: its word with others after it, or words whose letters one edit makes
/// the header's, or two.
fn are_like(alloc: Global, words: &[Word<'_>], header: &str) -> Result<bool, Memory>
    ensures { IfOk result (λ are. are ≡ true → AreLike (map text_of words.now) header.now) }
{
    if words.is_empty() || words.len() > MOST_WORDS {
        return Ok(false);
    }
    if same_name(words[0].text(), header) {
        return Ok(true);
    }
    let letters = letters_of(alloc, words)?;
    Ok(are_nearly(letters.as_bytes(), header.as_bytes()))
}

/// Whether a line is no header, but written much like one of that word.
pub fn is_like(alloc: Global, source: &Source, line: u32, header: &str) -> Result<bool, Memory>
    requires { HasLine source.now line }
    ensures { IfOk result (λ is. is ≡ true → IsLikeHeaderOf source.now header.now line) }
{
    if source.is_header(line) {
        return Ok(false);
    }
    let words = words(alloc, source, line, Cut::Blanks)?;
    are_like(alloc, &words, header)
}

/// The first line that is no header, but written much like one of that word.
fn first_like(alloc: Global, source: &Source, header: &str) -> Result<Option<u32>, Memory>
    ensures { IfOk result (λ like. IfSome like (IsLikeHeaderOf source.now header.now)) }
{
    for line in 1..source.lines() + 1 {
        if is_like(alloc, source, line, header)? {
            return Ok(Some(line));
        }
    }
    Ok(None)
}

/// Whether a text has nothing but blanks and line ends.
fn is_empty(text: &[u8]) -> bool
    ensures { result ≡ is_empty text.now }
{
    text.iter()
        .all(|byte| matches!(*byte, b' ' | b'\t' | b'\r' | b'\n'))
}

/// What the missing of a section may come from.
fn clue_of(alloc: Global, text: &[u8], source: &Source, section: Section) -> Result<Clue, Memory>
    requires { source.now ≡ text.now }
    ensures { IfOk result (λ clue. IsClue source.now section clue) }
{
    if is_empty(text) {
        return Ok(Clue::Empty);
    }
    if let Some(place) = first_zero(text) {
        return Ok(Clue::Zero(place));
    }
    if let Some(line) = open_comment(text, source) {
        return Ok(Clue::Open(line));
    }
    if let Some(place) = lone_return(text) {
        return Ok(Clue::Returns(place));
    }
    let Some(line) = first_like(alloc, source, header_of(section))? else {
        return Ok(Clue::Nothing);
    };
    Ok(Clue::Like(line))
}

/// The section that isn't there, and what that may come from.
pub fn missing_cause<'a>(
    alloc: Global,
    text: &[u8],
    source: &'a Source,
) -> Result<Cause<'a>, Memory>
    requires { source.now ≡ text.now }
    ensures { (line : ℕ) → IfOk result (IsToldAt source.now line) }
{
    let Some(section) = missing_section(source) else {
        return Ok(Cause::Untold);
    };
    let clue = clue_of(alloc, text, source, section)?;
    Ok(Cause::MissingSection { section, clue })
}

/// The sections that may have no header.
const OPTIONAL: [Section; 4] = [
    Section::Legend,
    Section::Sounds,
    Section::Rules,
    Section::Wins,
];

/// That a line is written much like the header of a section, if the text hasn't that.
pub fn like_cause<'a>(
    alloc: Global,
    source: &'a Source,
    line: u32,
    section: Section,
) -> Result<Cause<'a>, Memory>
    requires { HasLine source.now line }
    ensures { IfOk result (IsToldAt source.now line) }
{
    if has_section(source, section) || !is_like(alloc, source, line, header_of(section))? {
        return Ok(Cause::Untold);
    }
    let words = words_of(alloc, source, line)?;
    if words.is_empty() {
        return Ok(Cause::Untold);
    }
    Ok(Cause::LikeHeader {
        word: words[0],
        section,
    })
}

/// That a line is written much like a header that the text hasn't.
pub fn like_header_cause<'a>(
    alloc: Global,
    source: &'a Source,
    line: u32,
) -> Result<Cause<'a>, Memory>
    requires { HasLine source.now line }
    ensures { IfOk result (IsToldAt source.now line) }
{
    for at in 0..OPTIONAL.len() {
        let cause = like_cause(alloc, source, line, OPTIONAL[at])?;
        if cause.is_told() {
            return Ok(cause);
        }
    }
    Ok(Cause::Untold)
}
