//! The items of a cell.

ghost use Rattle.std.specs.Prelude.{◌≡◌, ◌++◌, ◌∷◌, [], IfOk, OnOk};
ghost use Rattle.ps_model.specs.rules.RuleSymbols.{Called};
ghost use Rattle.ps_model.specs.rules.RuleTree.{named_item, items_of};
ghost use Rattle.ps_names.specs.Shown.{meaning_shown};
ghost use Rattle.ps_rules.specs.RulesShown.{item_shown, items_shown};
ghost use Rattle.ps_rules.specs.SymbolsShown.{symbol_shown, tokens_shown};

use crate::symbols::{Symbol, Token};
use crate::tree::Item;
use ps_model::Memory;
use ps_names::Meaning;
use smallvec::SmallVec;
use std::alloc::Global;

/// The item of a name at a byte of the text, right after a word.
fn item_behind(before: Symbol<'_>, at: u32, meaning: Meaning) -> Item
    ensures { item_shown result ∷ [] ≡ named_item (symbol_shown before.entry) at (Called (meaning_shown meaning)) }
{
    match before {
        Symbol::Moves(word) => Item::Is {
            at,
            word: Some(word),
            meaning,
        },
        Symbol::Without => Item::No { meaning },
        _ => Item::Is {
            at,
            word: None,
            meaning,
        },
    }
}

/// Puts the item of a word last, if it is a name. It stands right after another word.
fn push_named(
    alloc: Global,
    items: &mut SmallVec<Item, 2>,
    before: Symbol<'_>,
    token: Token<'_>,
) -> Result<(), Memory>
    ensures { OnOk result (items_shown items.new.items
        ≡ items_shown items.old.items
        ++ named_item (symbol_shown before.entry) token.entry.at (symbol_shown token.entry.symbol)) }
{
    let Symbol::Called(meaning) = token.symbol else {
        return Ok(());
    };
    let meaning = meaning.copied(alloc)?;
    items.push(item_behind(before, token.at, meaning))?;
    Ok(())
}

/// The items of a cell's words.
pub fn items_of(alloc: Global, tokens: &[Token<'_>]) -> Result<SmallVec<Item, 2>, Memory>
    ensures { IfOk result (λ items. items_shown items.items ≡ items_of (tokens_shown tokens.now)) }
{
    let mut items = SmallVec::new(alloc);
    let mut before = Symbol::Open;
    for token in tokens {
        push_named(alloc, &mut items, before, *token)?;
        before = token.symbol;
    }
    Ok(items)
}
