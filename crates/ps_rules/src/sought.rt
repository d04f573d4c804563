//! Looking for occurrences of names and of movement words.

ghost use Rattle.std.specs.Prelude.{◌≡◌, ◌++◌, ◌∷◌, List as Sequence, ℕ, filter};
ghost use Rattle.std.specs.Option.{option_to_list};
ghost use Rattle.ps_model.specs.meaning.Occurrences.{same_meaning, numbers, has_movement};
ghost use Rattle.ps_model.specs.rules.SourceRules.{Item as TheItem, Is};
ghost use Rattle.ps_names.specs.Shown.{meaning_shown};
ghost use Rattle.ps_rules.specs.RulesShown.{item_shown, items_shown};
ghost use Rattle.ps_rules.specs.SoughtItems.{is_sought, found_with, first_number};

use crate::tree::Item;
use ps_model::MovementWord;
use ps_names::Meaning;

/// Whether two names are the same: they stand for the same object, or for the aggregate or property of one legend line.
pub fn same_meaning(first: &Meaning, second: &Meaning) -> bool
    ensures { result ≡ same_meaning (meaning_shown first.now) (meaning_shown second.now) }
{
    match (first, second) {
        (Meaning::One(first), Meaning::One(second)) => first == second,
        (Meaning::All { line: first, .. }, Meaning::All { line: second, .. }) => first == second,
        (Meaning::Any { line: first, .. }, Meaning::Any { line: second, .. }) => first == second,
        _ => false,
    }
}

/// Whether an item's word is this one.
fn has_movement(word: MovementWord, written: Option<MovementWord>) -> bool
    ensures { result ≡ has_movement word written }
{
    written == Some(word)
}

/// What is looked for.
#[derive(Clone, Copy)]
pub enum Sought<'m> {
    /// A name.
    Name(&'m Meaning),
    /// A movement word, with whatever name.
    Word(MovementWord),
    /// A name with a movement word.
    Both(MovementWord, &'m Meaning),
}

impl<'m> Sought<'m> {
    /// Whether an item of that word and that meaning is one.
    fn fits(self, written: Option<MovementWord>, meaning: &Meaning) -> bool
        ensures { (at : ℕ) → result ≡ is_sought self.entry (Is at written (meaning_shown meaning.now)) }
    {
        match self {
            Sought::Name(name) => same_meaning(name, meaning),
            Sought::Word(word) => has_movement(word, written),
            Sought::Both(word, name) => same_meaning(name, meaning) && has_movement(word, written),
        }
    }

    /// The number of an item, if it is one that is looked for.
    fn at(self, item: &Item) -> Option<u32>
        ensures { (rest : Sequence TheItem) → numbers (filter (is_sought self.entry) (item_shown item.now ∷ rest))
            ≡ option_to_list result ++ numbers (filter (is_sought self.entry) rest) }
    {
        let Item::Is { at, word, meaning } = item else {
            return None;
        };
        if !self.fits(*word, meaning) {
            return None;
        }
        Some(*at)
    }
}

/// The number of the first of the items that is looked for.
pub fn first_of(sought: Sought<'_>, items: &[Item]) -> Option<u32>
    ensures { result ≡ first_number (numbers (filter (is_sought sought.entry) (items_shown items.now))) }
{
    for item in items {
        if let Some(at) = sought.at(item) {
            return Some(at);
        }
    }
    None
}

/// What was found so far.
#[derive(Clone, Copy)]
pub enum Found {
    Nothing,
    /// One occurrence, at that byte of the text.
    Only(u32),
    Several,
}

impl Found {
    /// With one more.
    pub fn with_one(self, at: u32) -> Found
        ensures { result ≡ found_with self at }
    {
        match self {
            Found::Nothing => Found::Only(at),
            Found::Only(_) => Found::Several,
            Found::Several => Found::Several,
        }
    }
}
