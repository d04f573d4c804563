//! The words with which a line of the prelude begins that says something.

ghost use Rattle.std.specs.Prelude.{◌≡◌, find};
ghost use Rattle.std.specs.List.{list_any};
ghost use Rattle.std.specs.Str.{bytes_eq};
ghost use Rattle.ps_warnings.specs.NearWords.{is_near};
ghost use Rattle.ps_warnings.specs.PreludeWords.{word_text, misspelt};

use crate::kinds::PreludeWord;
use crate::near_words::is_near;

/// All of them.
const PRELUDE_WORDS: [PreludeWord; 9] = [
    PreludeWord::Title,
    PreludeWord::Author,
    PreludeWord::Homepage,
    PreludeWord::NoAction,
    PreludeWord::NoUndo,
    PreludeWord::NoRestart,
    PreludeWord::RequirePlayerMovement,
    PreludeWord::RunRulesOnLevelStart,
    PreludeWord::Flickscreen,
];

impl PreludeWord {
    /// The word, as a text has it.
    pub fn text(self) -> &'static str
        ensures { result.now ≡ word_text self }
    {
        match self {
            PreludeWord::Title => "title",
            PreludeWord::Author => "author",
            PreludeWord::Homepage => "homepage",
            PreludeWord::NoAction => "noaction",
            PreludeWord::NoUndo => "noundo",
            PreludeWord::NoRestart => "norestart",
            PreludeWord::RequirePlayerMovement => "require_player_movement",
            PreludeWord::RunRulesOnLevelStart => "run_rules_on_level_start",
            PreludeWord::Flickscreen => "flickscreen",
        }
    }
}

/// Whether a word is one of these.
fn is_one_of(words: &[PreludeWord], word: &str) -> bool
    ensures { result ≡ list_any (λ one. bytes_eq word.now (word_text one)) words.now }
{
    for one in words {
        if word == one.text() {
            return true;
        }
    }
    false
}

/// The first of these that a word is written much like.
fn first_near(words: &[PreludeWord], word: &str) -> Option<PreludeWord>
    ensures { result ≡ find (λ one. is_near word.now (word_text one)) words.now }
{
    for one in words {
        if is_near(word, one.text()) {
            return Some(*one);
        }
    }
    None
}

/// The word that a first word of the prelude is surely meant to be, whose letters are folded: it is none, and is
/// written much like this one.
#[tactic(auto, unfolding(crate::specs::PreludeWords::misspelt))]
pub fn misspelt(word: &str) -> Option<PreludeWord>
    ensures { result ≡ misspelt word.now }
{
    if is_one_of(&PRELUDE_WORDS, word) {
        return None;
    }
    first_near(&PRELUDE_WORDS, word)
}
