//! The cells of a rule, each with its words on the left and on the right of the arrow.

ghost use Rattle.std.specs.Prelude.{◌≡◌, [], IfOk, map, drop, slice_index_or};
ghost use Rattle.std.specs.List.{list_all};
ghost use Rattle.ps_model.specs.rules.RuleShape.{paired_cells, paired_rows, is_ellipsis};
ghost use Rattle.ps_model.specs.rules.RuleTree.{is_gap};
ghost use Rattle.ps_rules.specs.CellsShown.{words_shown, cells_shown, cell_rows_shown, cells_of_rows};
ghost use Rattle.ps_rules.specs.Kinds.{is_kind, parts_shown};
ghost use Rattle.ps_rules.specs.ShapesShown.{row_shown, rows_shown, shape_shown};
ghost use Rattle.ps_rules.specs.SymbolsShown.{tokens_shown};

use crate::kinds::{Kind, has_kind};
use crate::shapes::{RuleShape, WrittenRow};
use crate::symbols::Token;
use ps_model::Memory;
use std::alloc::Global;

/// A cell as it is written: its words on the left and on the right.
#[derive(Clone, Copy)]
pub struct WrittenCell<'a, 'n> {
    pub left: &'a [Token<'n>],
    pub right: &'a [Token<'n>],
}

/// The items after the first.
pub fn without_first<T>(items: &[T]) -> &[T]
    ensures { result.now ≡ drop 1 items.entry.now }
{
    if items.is_empty() {
        return items;
    }
    &items[1..]
}

/// The first words; none, where there are none.
fn first_words<'a, 'n>(parts: &[&'a [Token<'n>]]) -> &'a [Token<'n>]
    ensures { tokens_shown result.now ≡ slice_index_or (parts_shown parts.now) 0 [] }
{
    if parts.is_empty() {
        return &[];
    }
    parts[0]
}

/// The cells of two rows, each with its words on the left and on the right.
fn paired_cells<'a, 'n>(
    alloc: Global,
    left: &[&'a [Token<'n>]],
    right: &[&'a [Token<'n>]],
) -> Result<Vec<WrittenCell<'a, 'n>>, Memory>
    ensures { IfOk result (λ cells. cells_shown cells.items
        ≡ paired_cells (parts_shown left.now, parts_shown right.now)) }
{
    let mut cells = Vec::new(alloc);
    let mut others = right;
    for words in left {
        cells.push(WrittenCell {
            left: words,
            right: first_words(others),
        })?;
        others = without_first(others);
    }
    Ok(cells)
}

/// The cells of a row of the left, beside those of the first row of the right, if there is one.
fn paired_row<'a, 'n>(
    alloc: Global,
    left: &WrittenRow<'a, 'n>,
    right: &[WrittenRow<'a, 'n>],
) -> Result<Vec<WrittenCell<'a, 'n>>, Memory>
    ensures { IfOk result (λ cells. cells_shown cells.items
        ≡ paired_cells ((row_shown left.now).cells, slice_index_or (cells_of_rows (rows_shown right.now)) 0 [])) }
{
    if right.is_empty() {
        return paired_cells(alloc, &left.cells, &[]);
    }
    paired_cells(alloc, &left.cells, &right[0].cells)
}

/// The rows of a rule, each with its cells. Where the right has no rows, its cells are empty.
pub fn paired_rows<'a, 'n>(
    alloc: Global,
    shape: &RuleShape<'a, 'n>,
) -> Result<Vec<Vec<WrittenCell<'a, 'n>>>, Memory>
    ensures { IfOk result (λ rows. cell_rows_shown rows.items
        ≡ map paired_cells (paired_rows (shape_shown shape.now))) }
{
    let mut rows = Vec::new(alloc);
    let left = shape.left.rows.as_slice();
    let mut others = shape.right.rows.as_slice();
    for row in left {
        let cells = paired_row(alloc, row, others)?;
        rows.push(cells)?;
        others = without_first(others);
    }
    Ok(rows)
}

/// Whether all words are ellipses.
fn are_ellipses(tokens: &[Token<'_>]) -> bool
    ensures { result ≡ list_all (λ token. is_ellipsis token.symbol) (tokens_shown tokens.now) }
{
    for token in tokens {
        if !Kind::Ellipsis.has(token.symbol) {
            return false;
        }
    }
    true
}

/// Whether the cell has `...` and nothing else.
pub fn is_gap(cell: WrittenCell<'_, '_>) -> bool
    ensures { result ≡ is_gap (words_shown cell.entry) }
{
    has_kind(Kind::Ellipsis, cell.left) && are_ellipses(cell.left) && are_ellipses(cell.right)
}
