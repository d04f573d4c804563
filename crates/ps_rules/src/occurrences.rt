//! The occurrences of names in a rule's cells: which one of the left decides one of the right, and which properties are
//! loose.

ghost use Rattle.std.specs.Prelude.{◌≡◌, List as Sequence, ℕ, IfOk, filter};
ghost use Rattle.std.specs.List.{list_any, list_all};
ghost use Rattle.ps_model.specs.meaning.Directions.{is_several};
ghost use Rattle.ps_model.specs.names.Names.{layer_of};
ghost use Rattle.ps_model.specs.meaning.Occurrences.{here_or_only, numbers, bound_name, bound_word};
ghost use Rattle.ps_model.specs.meaning.Occurrences.{cells_of as cells_of_rule, are_on_one_layer, is_on_left_too};
ghost use Rattle.ps_model.specs.meaning.Occurrences.{is_loose, names_it};
ghost use Rattle.ps_names.specs.Shown.{meaning_shown};
ghost use Rattle.ps_rules.specs.RulesShown.{rule_shown, cell_shown, items_shown, cell_list_shown};
ghost use Rattle.ps_rules.specs.declared.sought.Found.TheVariants.{Nothing};
ghost use Rattle.ps_rules.specs.Unmatched.{is_unmatched};
ghost use Rattle.ps_rules.specs.SoughtItems.{is_sought, found_from, only_found};

use crate::index::Index;
use crate::line_set::LineSet;
use crate::sought::{Found, Sought, first_of};
use crate::tree::{CellPair, Item, SourceRule};
use crate::tree_cells::cells_of;
use crate::unmatched::unmatched_in;
use ps_model::{Memory, MovementWord, ObjectId};
use ps_names::{Meaning, Names};
use std::alloc::Global;
use std::marker::Model;

/// The occurrences of names in a rule's cells. Contracts see the rule.
#[derive(Drop)]
pub struct Occurrences<'r> {
    rule: &'r SourceRule,
    cells: Vec<&'r CellPair>,
    /// What is found on the left of all cells.
    left: Index,
    /// The legend lines of the properties that are unmatched in one of the cells.
    unmatched: LineSet,
}

impl<'r> Model for Occurrences<'r> {
    ghost use Rattle.std.specs.Prelude.{◌≡◌};
    ghost use Rattle.ps_model.specs.rules.SourceRules.{SourceRule as Meant};
    ghost use Rattle.ps_model.specs.meaning.Occurrences.{cells_of};
    ghost use Rattle.ps_rules.specs.RulesShown.{rule_shown, cell_list_shown};
    ghost use Rattle.ps_rules.specs.Tallies.{IsIndexOf};
    ghost use Rattle.ps_rules.specs.Unmatched.{AreUnmatched};

    ghost Value = { Meant };

    ghost view = { λ o. rule_shown o.rule.now };

    ghost invariant = { λ o. (cell_list_shown o.cells.items ≡ cells_of (rule_shown o.rule.now))
        × IsIndexOf o.left (cells_of (rule_shown o.rule.now))
        × AreUnmatched o.unmatched (cells_of (rule_shown o.rule.now)) };
}

impl Found {
    /// The one that is found, if there is no other.
    fn only(self) -> Option<u32>
        ensures { result ≡ only_found self }
    {
        match self {
            Found::Nothing => None,
            Found::Only(at) => Some(at),
            Found::Several => None,
        }
    }
}

/// The number of the first item that is looked for here; where there is none, that of the only one found of all.
#[tactic(auto, using(crate::proofs::Founds::here_of, crate::proofs::Founds::not_here))]
fn here_or_only(here: Sought<'_>, items: &[Item], all: Found) -> Option<u32>
    ensures { (numbers_of_all : Sequence ℕ) → all ≡ found_from Nothing numbers_of_all → result
        ≡ here_or_only (numbers (filter (is_sought here.entry) (items_shown items.now))) numbers_of_all }
{
    let first = first_of(here, items);
    if first.is_some() {
        return first;
    }
    all.only()
}

impl<'r> Occurrences<'r> {
    /// The occurrences in a rule's cells. `Memory` if there is no room for their list.
    pub fn of(alloc: Global, rule: &'r SourceRule) -> Result<Occurrences<'r>, Memory>
        ensures { IfOk result (λ occurrences. occurrences ≡ rule_shown rule.entry.now) }
    {
        let cells = cells_of(alloc, rule)?;
        let left = Index::of_left(alloc, &cells)?;
        let unmatched = unmatched_in(alloc, &cells)?;
        Ok(Occurrences {
            rule,
            cells,
            left,
            unmatched,
        })
    }

    /// The rule.
    pub fn rule(&self) -> &'r SourceRule
        ensures { rule_shown result.now ≡ self.now }
    {
        self.rule
    }

    /// The number of the rule's line, from 1.
    pub fn line(&self) -> u32
        ensures { result ≡ self.now.line }
    {
        self.rule.line
    }

    /// The cells of the rule in written order.
    pub fn cells(&self) -> &[&'r CellPair]
        ensures { cell_list_shown result.now ≡ cells_of_rule self.now }
    {
        self.cells.as_slice()
    }

    /// Whether the property of a legend line stands on the right of a cell whose left lacks it.
    pub(crate) fn is_unmatched(&self, line: u32) -> bool
        ensures { result ≡ list_any (is_unmatched line) (cells_of_rule self.now) }
    {
        self.unmatched.has(line)
    }

    /// The left occurrence that decides a property on the right of a cell, by its byte of the text: the one in the same
    /// cell with the same name; without one, the only left occurrence of that property.
    pub fn bound_name(&self, cell: &CellPair, meaning: &Meaning) -> Option<u32>
        ensures { result ≡ bound_name self.now (cell_shown cell.now) (meaning_shown meaning.now) }
    {
        let name = Sought::Name(meaning);
        here_or_only(name, cell.left.as_slice(), self.left.name(meaning))
    }

    /// The left occurrence that decides a word of several moves before a name on the right of a cell, by its byte of
    /// the text: the one in the same cell with the same word and the same name; without one, the only left occurrence
    /// of that word, with whatever name.
    pub fn bound_word(&self, cell: &CellPair, word: MovementWord, meaning: &Meaning) -> Option<u32>
        ensures { result ≡ bound_word self.now (cell_shown cell.now) word (meaning_shown meaning.now) }
    {
        let both = Sought::Both(word, meaning);
        here_or_only(both, cell.left.as_slice(), self.left.word(word))
    }
}
