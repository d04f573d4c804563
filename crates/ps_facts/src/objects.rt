//! Which lines of OBJECTS name an object.

ghost use Rattle.std.specs.Prelude.{◌≡◌, map};
ghost use Rattle.ps_model.specs.names.ObjectLines.{is_sprite_byte, is_sprite_word};
ghost use Rattle.ps_text.specs.WordViews.{text_of};
ghost use Rattle.ps_facts.specs.Objects.{takes_row, names_object, below_row, below_words, place_below, is_row};

use ps_text::Word;

/// How many rows a sprite has.
pub const SPRITE_ROWS: u32 = 5;

/// Where a line of OBJECTS stands.
#[derive(Clone, Copy)]
pub enum Place {
    /// Between objects.
    Between,
    /// Right below a name line, where the colours stand.
    BelowName,
    /// Below the colours, where this many more rows of a sprite may stand.
    BelowColours(u32),
}

/// Whether the byte may stand in a row of a sprite.
fn is_sprite_byte(byte: u8) -> bool
    ensures { result ≡ is_sprite_byte byte }
{
    byte == b'.' || byte.is_ascii_digit()
}

/// Whether the word is a row of a sprite.
fn is_sprite_word(word: &str) -> bool
    ensures { result ≡ is_sprite_word word.now }
{
    word.len() == 5 && word.as_bytes().iter().all(|byte| is_sprite_byte(*byte))
}

/// Whether the words of a line are a row of a sprite.
pub fn is_row(words: &[Word<'_>]) -> bool
    ensures { result ≡ is_row (map text_of words.now) }
{
    if words.len() != 1 {
        return false;
    }
    is_sprite_word(words[0].text())
}

/// Whether a row of a sprite that stands at that place is the object's above.
fn takes_row(place: Place, is_row: bool) -> bool
    ensures { result ≡ takes_row place is_row }
{
    match place {
        Place::Between | Place::BelowName => false,
        Place::BelowColours(rows) => rows > 0 && is_row,
    }
}

/// Whether a line at that place names an object, which is blank or the row of a sprite, or neither.
pub fn names_object(place: Place, is_blank: bool, is_row: bool) -> bool
    ensures { result ≡ names_object place is_blank is_row }
{
    if takes_row(place, is_row) {
        return false;
    }
    match place {
        Place::BelowName => false,
        Place::Between | Place::BelowColours(_) => !is_blank,
    }
}

/// The place below a row of a sprite.
fn below_row(place: Place) -> Place
    ensures { result ≡ below_row place }
{
    match place {
        Place::Between | Place::BelowName => Place::Between,
        Place::BelowColours(rows) => Place::BelowColours(rows.saturating_sub(1)),
    }
}

/// The place below a line with words.
fn below_words(place: Place) -> Place
    ensures { result ≡ below_words place }
{
    match place {
        Place::Between | Place::BelowColours(_) => Place::BelowName,
        Place::BelowName => Place::BelowColours(SPRITE_ROWS),
    }
}

/// The place below a line at that place, which is blank or the row of a sprite, or neither.
pub fn place_below(place: Place, is_blank: bool, is_row: bool) -> Place
    ensures { result ≡ place_below place is_blank is_row }
{
    if takes_row(place, is_row) {
        return below_row(place);
    }
    if is_blank {
        return Place::Between;
    }
    below_words(place)
}
