//! The scan of a line for its words, cut at bytes that part words.

ghost use Rattle.std.specs.Prelude.{◌≡◌, ◌+◌, ◌<◌, ◌≤◌, false, ◌∷◌, length, drop, None, slice_index, IfSome};
ghost use Rattle.std.specs.List.{prefix_len};
ghost use Rattle.std.specs.Str.{IsUtf8, IsCharBoundary};
ghost use Rattle.ps_model.specs.text.Words.{is_blank, parts_words, stands_alone, words_from};
ghost use Rattle.ps_text.specs.WordRanges.{words_with, IsSolid, IsWordRange};

use ps_model::Cut;

/// Bytes of a line or text: from `start` to before `end`.
#[derive(Clone, Copy)]
pub struct ByteRange {
    pub start: usize,
    pub end: usize,
}

/// Whether the byte is a blank: space, tab or carriage return.
pub fn is_blank_byte(byte: u8) -> bool
    ensures { result ≡ is_blank byte }
{
    byte == b' ' || byte == b'\t' || byte == b'\r'
}

/// Whether the byte parts words.
pub fn parts(cut: Cut, byte: u8) -> bool
    ensures { result ≡ parts_words cut byte }
{
    match cut {
        Cut::Blanks | Cut::Legend | Cut::Rule => is_blank_byte(byte),
        Cut::Layers => is_blank_byte(byte) || byte == b',',
    }
}

/// Whether the byte is a word by itself.
pub fn is_alone(cut: Cut, byte: u8) -> bool
    ensures { result ≡ stands_alone cut byte }
{
    match cut {
        Cut::Blanks | Cut::Layers => false,
        Cut::Legend => byte == b'=',
        Cut::Rule => byte == b'[' || byte == b']' || byte == b'|',
    }
}

/// The first place from `from` on whose byte parts no words, or else the line's end.
pub fn past_parting(line: &[u8], cut: Cut, from: usize) -> usize
    requires utf8 { IsUtf8 line.now }
    requires cuttable { IsCharBoundary line.now from }
    ensures place { result ≡ from + prefix_len (parts_words cut) (drop from line.now) }
    ensures words { words_from cut from None (drop from line.now) ≡ words_from cut result None (drop result line.now) }
    ensures behind { from ≤ result }
    ensures cuttable { IsCharBoundary line.now result }
    ensures word { result < length line.now → parts_words cut (slice_index line.now result) ≡ false }
{
    for at in from..line.len() {
        if !parts(cut, line[at]) {
            return at;
        }
    }
    line.len()
}

/// Where the run that begins at `start` ends.
fn run_end(line: &[u8], cut: Cut, start: usize) -> usize
    requires utf8 { IsUtf8 line.now }
    requires holds { start < length line.now }
    requires in_run { parts_words cut (slice_index line.now start) ≡ false }
    requires no_word { stands_alone cut (slice_index line.now start) ≡ false }
    ensures words { words_from cut start None (drop start line.now)
        ≡ (start, result) ∷ words_from cut result None (drop result line.now) }
    ensures behind { start < result }
    ensures cuttable { IsCharBoundary line.now result }
    ensures solid { IsSolid line.now start result }
{
    for at in start + 1..line.len() {
        if parts(cut, line[at]) {
            return at;
        }
        if is_alone(cut, line[at]) {
            return at;
        }
    }
    line.len()
}

/// The first word from `from` on, which stands between words or at the line's start.
pub fn next_word(line: &[u8], cut: Cut, from: usize) -> Option<ByteRange>
    requires utf8 { IsUtf8 line.now }
    requires cuttable { IsCharBoundary line.now from }
    ensures words { words_from cut from None (drop from line.now) ≡ words_with cut line.now result }
    ensures range { IfSome result (IsWordRange line.now from) }
{
    let start = past_parting(line, cut, from);
    if start == line.len() {
        return None;
    }
    if is_alone(cut, line[start]) {
        let end = start + 1;
        return Some(ByteRange { start, end });
    }
    let end = run_end(line, cut, start);
    Some(ByteRange { start, end })
}
