//! Where ellipses stand in a rule.

ghost use Rattle.std.specs.Prelude.{◌≡◌, ◌||◌, [], map, nat_lt, length, filter, slice_index_or};
ghost use Rattle.std.specs.List.{list_any};
ghost use Rattle.ps_model.specs.rules.RuleShape.{has_kind, is_ellipsis, paired_cells, paired_rows};
ghost use Rattle.ps_model.specs.rules.RuleShapeFaults.{mixes_ellipsis, ends_in_ellipsis, ellipses_touch};
ghost use Rattle.ps_model.specs.rules.RuleShapeFaults.{has_many_ellipses, has_wrong_cells};
ghost use Rattle.ps_model.specs.rules.RuleShapeFaults.{has_wrong_ellipsis, has_lone_ellipsis, has_bad_ellipsis};
ghost use Rattle.ps_rules.specs.CellsShown.{words_shown, cells_shown, cell_rows_shown};
ghost use Rattle.ps_rules.specs.Kinds.{parts_shown};
ghost use Rattle.ps_rules.specs.ShapesShown.{side_shown, shape_shown};
ghost use Rattle.ps_rules.specs.SymbolsShown.{tokens_shown};

use crate::cells::WrittenCell;
use crate::kinds::{Kind, has_kind};
use crate::shapes::{RuleShape, WrittenSide};
use crate::sides::has_rows;
use crate::symbols::Token;
use ps_model::ELLIPSIS_LIMIT;

/// Whether one of the cells has an ellipsis with other items.
fn some_mixes(cells: &[&[Token<'_>]]) -> bool
    ensures { result ≡ list_any mixes_ellipsis (parts_shown cells.now) }
{
    for cell in cells {
        if has_kind(Kind::Ellipsis, cell) && cell.len() != 1 {
            return true;
        }
    }
    false
}

/// Whether the first or the last cell has an ellipsis.
fn ends_in_ellipsis(cells: &[&[Token<'_>]]) -> bool
    ensures { result ≡ ends_in_ellipsis (parts_shown cells.now) }
{
    if cells.is_empty() {
        return false;
    }
    has_kind(Kind::Ellipsis, cells[0]) || has_kind(Kind::Ellipsis, cells[cells.len() - 1])
}

/// Whether two neighbouring cells have an ellipsis.
fn ellipses_touch(cells: &[&[Token<'_>]]) -> bool
    ensures { result ≡ ellipses_touch (parts_shown cells.now) }
{
    let mut before = false;
    for cell in cells {
        let here = has_kind(Kind::Ellipsis, cell);
        if before && here {
            return true;
        }
        before = here;
    }
    false
}

/// Whether more cells have an ellipsis than may: `ELLIPSIS_LIMIT`.
fn has_many(cells: &[&[Token<'_>]]) -> bool
    ensures { result ≡ has_many_ellipses (parts_shown cells.now) }
{
    let mut found = 0;
    for cell in cells {
        if has_kind(Kind::Ellipsis, cell) {
            if found == ELLIPSIS_LIMIT {
                return true;
            }
            found += 1;
        }
    }
    false
}

/// Whether an ellipsis of the cells can't stand where it does.
fn has_wrong_cells(cells: &[&[Token<'_>]]) -> bool
    ensures { result ≡ has_wrong_cells (parts_shown cells.now) }
{
    some_mixes(cells) || ends_in_ellipsis(cells) || ellipses_touch(cells) || has_many(cells)
}

/// Whether an ellipsis of the side can't stand where it does.
fn has_wrong_ellipsis(side: &WrittenSide<'_, '_>) -> bool
    ensures { result ≡ has_wrong_ellipsis (side_shown side.now) }
{
    for row in side.rows.as_slice() {
        if has_wrong_cells(&row.cells) {
            return true;
        }
    }
    false
}

/// Whether the cell has an ellipsis on one side alone.
fn has_lone(cell: WrittenCell<'_, '_>) -> bool
    ensures { result ≡ has_lone_ellipsis (words_shown cell.entry) }
{
    has_kind(Kind::Ellipsis, cell.left) != has_kind(Kind::Ellipsis, cell.right)
}

/// Whether one of the cells has an ellipsis on one side alone.
fn some_has_lone(cells: &[WrittenCell<'_, '_>]) -> bool
    ensures { result ≡ list_any has_lone_ellipsis (cells_shown cells.now) }
{
    for cell in cells {
        if has_lone(*cell) {
            return true;
        }
    }
    false
}

/// Whether a cell of one of the rows has an ellipsis on one side alone.
fn rows_have_lone(rows: &[Vec<WrittenCell<'_, '_>>]) -> bool
    ensures { result ≡ list_any (λ cells. list_any has_lone_ellipsis cells) (cell_rows_shown rows.now) }
{
    for cells in rows {
        if some_has_lone(cells) {
            return true;
        }
    }
    false
}

/// Whether an ellipsis of the rule can't stand where it does, or, where the right has rows, isn't at the same place on
/// both sides. The rule's rows are given by their cells, too.
#[tactic(auto, using(crate::proofs::Words::any_map))]
pub fn has_bad_ellipsis(shape: &RuleShape<'_, '_>, rows: &[Vec<WrittenCell<'_, '_>>]) -> bool
    requires { cell_rows_shown rows.now ≡ map paired_cells (paired_rows (shape_shown shape.now)) }
    ensures { result ≡ has_bad_ellipsis (shape_shown shape.now) }
{
    if has_wrong_ellipsis(&shape.left) || has_wrong_ellipsis(&shape.right) {
        return true;
    }
    has_rows(&shape.right) && rows_have_lone(rows)
}
