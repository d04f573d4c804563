//! The headers of sections.

ghost use Rattle.std.specs.Prelude.{◌≡◌};
ghost use Rattle.std.specs.Map.{lookup};
ghost use Rattle.std.specs.Str.{IsUtf8, bytes_eq};
ghost use Rattle.ps_model.specs.text.Lines.{folded, headers, header_of};

use crate::scan::next_word;
use ps_model::{Cut, Section};

/// Whether two names are one, their ASCII letters compared in either case.
pub fn is_word(word: &[u8], name: &[u8]) -> bool
    ensures { result ≡ bytes_eq (folded word.now) (folded name.now) }
{
    word.eq_ignore_ascii_case(name)
}

/// The section that a header of this name begins.
fn header_named(word: &[u8]) -> Option<Section>
    ensures { result ≡ lookup (bytes_eq (folded word.now)) headers }
{
    if is_word(word, b"objects") {
        return Some(Section::Objects);
    }
    if is_word(word, b"legend") {
        return Some(Section::Legend);
    }
    if is_word(word, b"sounds") {
        return Some(Section::Sounds);
    }
    if is_word(word, b"collisionlayers") {
        return Some(Section::Layers);
    }
    if is_word(word, b"rules") {
        return Some(Section::Rules);
    }
    if is_word(word, b"winconditions") {
        return Some(Section::Wins);
    }
    if is_word(word, b"levels") {
        return Some(Section::Levels);
    }
    None
}

/// The section that a line begins, if it is a header: one word, and a header's name.
pub fn header_of_line(line: &[u8]) -> Option<Section>
    requires { IsUtf8 line.now }
    ensures { result ≡ header_of line.now }
{
    let Some(first) = next_word(line, Cut::Blanks, 0) else {
        return None;
    };
    let second = next_word(line, Cut::Blanks, first.end);
    if second.is_some() {
        return None;
    }
    header_named(&line[first.start..first.end])
}
