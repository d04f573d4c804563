//! Words that give a line its form, and whether they stand among others.

ghost use Rattle.std.specs.Prelude.{◌≡◌, ◌<◌, true, IfSome, length, map, get_or};
ghost use Rattle.std.specs.List.{list_any};
ghost use Rattle.ps_text.specs.WordViews.{text_of};
ghost use Rattle.ps_facts.specs.Signs.{sign_text, is_sign, has_sign, is_direction, is_movement, is_quantifier};
ghost use Rattle.ps_facts.specs.Signs.{is_by_chance, is_command, is_edge, is_any, is_same};
ghost use Rattle.ps_facts.specs.Signs.{begins_comment, begins_row};

use ps_text::{Word, same_name};

/// A word that gives a line its form.
#[derive(Clone, Copy)]
pub enum Sign {
    /// `[`
    Opening,
    /// `]`
    Closing,
    /// `|`
    Bar,
    /// `->`
    Arrow,
    /// `late`
    Late,
    /// `no`
    Without,
    /// `startloop`
    LoopStart,
    /// `endloop`
    LoopEnd,
    /// `message`
    Message,
    /// `rigid`
    Rigid,
    /// `=`
    Equals,
    /// `and`
    And,
    /// `or`
    Or,
    /// `on`
    On,
    /// `realtime_interval`
    RealTime,
    /// `...`
    Ellipsis,
    /// `flickscreen`
    Rooms,
}

impl Sign {
    /// The word.
    fn text(self) -> &'static str
        ensures { result.now ≡ sign_text self }
    {
        match self {
            Sign::Opening => "[",
            Sign::Closing => "]",
            Sign::Bar => "|",
            Sign::Arrow => "->",
            Sign::Late => "late",
            Sign::Without => "no",
            Sign::LoopStart => "startloop",
            Sign::LoopEnd => "endloop",
            Sign::Message => "message",
            Sign::Rigid => "rigid",
            Sign::Equals => "=",
            Sign::And => "and",
            Sign::Or => "or",
            Sign::On => "on",
            Sign::RealTime => "realtime_interval",
            Sign::Ellipsis => "...",
            Sign::Rooms => "flickscreen",
        }
    }
}

/// Whether a word is that one, its letters in either case.
pub fn is_sign(sign: Sign, word: &str) -> bool
    ensures { result ≡ is_sign sign word.now }
{
    same_name(word, sign.text())
}

/// Whether that word is among others.
pub fn has_sign(sign: Sign, words: &[Word<'_>]) -> bool
    ensures { result ≡ has_sign sign (map text_of words.now) }
{
    for word in words {
        if is_sign(sign, word.text()) {
            return true;
        }
    }
    false
}

/// Whether a word is a bracket or the arrow of a rule.
pub fn is_edge(word: &str) -> bool
    ensures { result ≡ is_edge word.now }
{
    is_sign(Sign::Opening, word) || is_sign(Sign::Closing, word) || is_sign(Sign::Arrow, word)
}

/// The place of the first such word among others.
pub fn place_of_sign(sign: Sign, words: &[Word<'_>]) -> Option<usize>
    ensures within { IfSome result (λ at. at < length words.now) }
    ensures there { IfSome result (λ at. (d : _) → is_sign sign (text_of (get_or words.now at d)) ≡ true) }
{
    for at in 0..words.len() {
        if is_sign(sign, words[at].text()) {
            return Some(at);
        }
    }
    None
}

/// Whether a word is one of the words of a line, its letters in either case.
pub fn is_any(words: &[Word<'_>], word: &str) -> bool
    ensures { result ≡ is_any (map text_of words.now) word.now }
{
    for other in words {
        if same_name(word, other.text()) {
            return true;
        }
    }
    false
}

/// Whether a word is one of others, its letters in either case.
pub fn is_one_of(others: &[&str], word: &str) -> bool
    ensures { result ≡ list_any (λ other. is_same word.now other.now) others.now }
{
    for other in others {
        if same_name(word, other) {
            return true;
        }
    }
    false
}

/// The words that give a rule its directions.
const DIRECTIONS: [&str; 7] = [
    "up",
    "down",
    "left",
    "right",
    "horizontal",
    "vertical",
    "orthogonal",
];

/// The other words that say how an object moves.
const MOVEMENTS: [&str; 9] = [
    ">",
    "<",
    "^",
    "v",
    "parallel",
    "perpendicular",
    "action",
    "stationary",
    "moving",
];

/// The words that a win condition may begin with.
const QUANTIFIERS: [&str; 4] = ["no", "some", "any", "all"];

/// The words that ask for chance.
const BY_CHANCE: [&str; 2] = ["random", "randomdir"];

/// The commands, and `message`, which begins one.
const COMMANDS: [&str; 17] = [
    "cancel",
    "restart",
    "again",
    "checkpoint",
    "win",
    "message",
    "sfx0",
    "sfx1",
    "sfx2",
    "sfx3",
    "sfx4",
    "sfx5",
    "sfx6",
    "sfx7",
    "sfx8",
    "sfx9",
    "sfx10",
];

/// Whether a word gives a rule its directions.
pub fn is_direction(word: &str) -> bool
    ensures { result ≡ is_direction word.now }
{
    is_one_of(&DIRECTIONS, word)
}

/// Whether a word says how an object moves.
pub fn is_movement(word: &str) -> bool
    ensures { result ≡ is_movement word.now }
{
    is_direction(word) || is_one_of(&MOVEMENTS, word)
}

/// Whether a win condition may begin with the word.
pub fn is_quantifier(word: &str) -> bool
    ensures { result ≡ is_quantifier word.now }
{
    is_one_of(&QUANTIFIERS, word)
}

/// Whether a word asks for chance.
pub fn is_by_chance(word: &str) -> bool
    ensures { result ≡ is_by_chance word.now }
{
    is_one_of(&BY_CHANCE, word)
}

/// Whether a word is a command.
pub fn is_command(word: &str) -> bool
    ensures { result ≡ is_command word.now }
{
    is_one_of(&COMMANDS, word)
}

/// Whether a word begins with `;` or `#`, as comments do in other languages.
pub fn begins_comment(word: &str) -> bool
    ensures { result ≡ begins_comment word.now }
{
    word.as_bytes().starts_with(b";") || word.as_bytes().starts_with(b"#")
}

/// Whether a word begins with `[`, as a row of a rule does.
pub fn begins_row(word: &str) -> bool
    ensures { result ≡ begins_row word.now }
{
    word.as_bytes().starts_with(b"[")
}
