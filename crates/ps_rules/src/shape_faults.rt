//! The faults of a rule that lie in where its words stand.

ghost use Rattle.std.specs.Prelude.{◌≡◌, ◌++◌, [], length, slice_index_or};
ghost use Rattle.std.specs.List.{list_any};
ghost use Rattle.ps_model.specs.rules.RuleShape.{has_kind, is_bar, beside};
ghost use Rattle.ps_model.specs.rules.RuleShapeFaults.{words_outside, has_bad_bracket, has_unknown_word};
ghost use Rattle.ps_model.specs.rules.RuleShapeFaults.{has_other_rows, has_nothing_right, has_late_move};
ghost use Rattle.ps_model.specs.rules.RuleShapeFaults.{lengths_differ};
ghost use Rattle.ps_rules.specs.CellsShown.{cells_of_rows};
ghost use Rattle.ps_rules.specs.Kinds.{is_kind};
ghost use Rattle.ps_rules.specs.ShapesShown.{rows_shown, shape_shown};

use crate::cells::without_first;
use crate::kinds::{Kind, has_kind};
use crate::shapes::{RuleShape, WrittenRow};
use crate::sides::{
    are_there_before_end, are_there_behind, at_end, has_behind, has_in_cells, has_rows,
    has_wrong_cell,
};

/// Whether outside brackets, after the first `[` of the rule, stands a word of that kind.
#[tactic(auto, using(crate::proofs::Words::has_kind_append))]
fn has_outside(kind: Kind, shape: &RuleShape<'_, '_>) -> bool
    ensures { result ≡ has_kind (is_kind kind) (words_outside (shape_shown shape.now)) }
{
    has_behind(kind, &shape.left)
        || has_kind(kind, shape.right.ahead)
        || has_behind(kind, &shape.right)
}

/// Whether a `|` stands outside brackets.
#[tactic(auto, using(crate::proofs::Words::has_kind_append))]
fn has_bar_outside(shape: &RuleShape<'_, '_>) -> bool
    ensures { result ≡ has_kind is_bar ((shape_shown shape.now).left.ahead ++ words_outside (shape_shown shape.now)) }
{
    has_kind(Kind::Bar, shape.left.ahead) || has_outside(Kind::Bar, shape)
}

/// Whether there is no row on the left, or outside brackets a `|`, or a word of a cell after the first `[`.
pub fn has_bad_bracket(shape: &RuleShape<'_, '_>) -> bool
    ensures { result ≡ has_bad_bracket (shape_shown shape.now) }
{
    !has_rows(&shape.left) || has_bar_outside(shape) || has_outside(Kind::OfCell, shape)
}

/// Whether a word means nothing, or stands where it can't: before the rows something else than `+`, `late` and
/// direction words; after a row of the left anything; on the right anything before the last row, and something else
/// than commands after it.
pub fn has_unknown_word(shape: &RuleShape<'_, '_>) -> bool
    ensures { result ≡ has_unknown_word (shape_shown shape.now) }
{
    has_kind(Kind::NotOfRule, shape.left.ahead)
        || has_wrong_cell(&shape.left)
        || are_there_behind(&shape.left)
        || are_there_before_end(&shape.right)
        || has_wrong_cell(&shape.right)
        || has_kind(Kind::NoCommand, at_end(&shape.right))
}

/// How many cells the first of the rows has; none, where there is no row.
fn first_length(rows: &[WrittenRow<'_, '_>]) -> usize
    ensures { result ≡ length (slice_index_or (cells_of_rows (rows_shown rows.now)) 0 []) }
{
    if rows.is_empty() {
        return 0;
    }
    rows[0].cells.len()
}

/// Whether a row of the left and that at its place on the right have different numbers of cells.
fn some_lengths_differ(left: &[WrittenRow<'_, '_>], right: &[WrittenRow<'_, '_>]) -> bool
    ensures { result
        ≡ list_any lengths_differ
        (beside (cells_of_rows (rows_shown left.now)) (cells_of_rows (rows_shown right.now))) }
{
    let mut others = right;
    for row in left {
        if row.cells.len() != first_length(others) {
            return true;
        }
        others = without_first(others);
    }
    false
}

/// Whether the right has rows, and they aren't as many as those of the left, or one has another number of cells.
pub fn has_other_rows(shape: &RuleShape<'_, '_>) -> bool
    ensures { result ≡ has_other_rows (shape_shown shape.now) }
{
    let left = shape.left.rows.as_slice();
    let right = shape.right.rows.as_slice();
    has_rows(&shape.right) && (left.len() != right.len() || some_lengths_differ(left, right))
}

/// Whether the right has neither rows nor commands.
pub fn has_nothing_right(shape: &RuleShape<'_, '_>) -> bool
    ensures { result ≡ has_nothing_right (shape_shown shape.now) }
{
    !has_rows(&shape.right) && !has_kind(Kind::Command, at_end(&shape.right))
}

/// Whether a `late` rule has a movement word in its brackets.
#[tactic(auto, using(crate::proofs::Words::has_kind_append))]
pub fn has_late_move(shape: &RuleShape<'_, '_>) -> bool
    ensures { result ≡ has_late_move (shape_shown shape.now) }
{
    has_kind(Kind::Late, shape.left.ahead)
        && (has_in_cells(Kind::Movement, &shape.left) || has_in_cells(Kind::Movement, &shape.right))
}
