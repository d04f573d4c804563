//! When a level is won by its win conditions.

ghost use Rattle.std.specs.Prelude.{◌≡◌, ◌<◌, option_map, filter};
ghost use Rattle.std.specs.List.{list_any, list_all};
ghost use Rattle.ps_model.specs.board.Grid.{IsGrid};
ghost use Rattle.ps_model.specs.board.Turns.{is_won};
ghost use Rattle.ps_model.specs.board.Winning.{is_in, is_place, holds, won};
ghost use Rattle.ps_names.specs.Shown.{meaning_shown};
ghost use Rattle.ps_levels.specs.WinsShown.{win_shown, wins_shown};
ghost use Rattle.ps_turn.specs.RowsOfCells.{row_cells, is_met, is_missed};

use crate::rows::{columns_meant, columns_of_place, rows_meant};
use ps_board::{Board, Columns};
use ps_levels::Win;
use ps_model::Quantifier;

/// The columns of a row whose cells have the subject of a win condition and are places of it.
fn columns_met<B: Board>(board: &B, win: &Win, row: u32) -> Columns<B::Words>
    requires { row < (B.grid board.now).height }
    ensures { result ≡ row_cells (is_met (meaning_shown win.now.subject) (option_map meaning_shown win.now.place))
        (B.grid board.now) row }
{
    let with_subject = columns_meant(board, &win.subject, row);
    if with_subject.is_empty() {
        return with_subject;
    }
    with_subject.both(columns_of_place(board, &win.place, row))
}

/// The columns of a row whose cells have the subject of a win condition and are no places of it.
fn columns_missed<B: Board>(board: &B, win: &Win, row: u32) -> Columns<B::Words>
    requires { row < (B.grid board.now).height }
    ensures { result ≡ row_cells (is_missed (meaning_shown win.now.subject) (option_map meaning_shown win.now.place))
        (B.grid board.now) row }
{
    let with_subject = columns_meant(board, &win.subject, row);
    if with_subject.is_empty() {
        return with_subject;
    }
    with_subject.without(columns_of_place(board, &win.place, row))
}

/// Whether some cell with the subject of a win condition is a place of it.
fn some_met<B: Board>(board: &B, win: &Win) -> bool
    ensures { result ≡ list_any (is_place (option_map meaning_shown win.now.place))
        (filter (is_in (meaning_shown win.now.subject)) (B.grid board.now).cells) }
{
    let (_, height) = board.size();
    let rows = rows_meant(board, &win.subject);
    let mut left = rows.both(Columns::below(height));
    while let Some(row) = left.take_first() {
        if !columns_met(board, win, row).is_empty() {
            return true;
        }
    }
    false
}

/// Whether all cells with the subject of a win condition are places of it.
fn all_met<B: Board>(board: &B, win: &Win) -> bool
    ensures { result ≡ list_all (is_place (option_map meaning_shown win.now.place))
        (filter (is_in (meaning_shown win.now.subject)) (B.grid board.now).cells) }
{
    let (_, height) = board.size();
    let rows = rows_meant(board, &win.subject);
    let mut left = rows.both(Columns::below(height));
    while let Some(row) = left.take_first() {
        if !columns_missed(board, win, row).is_empty() {
            return false;
        }
    }
    true
}

/// Whether a win condition holds: `All X on Y` where every cell with X has Y, `Some X on Y` where some cell has both,
/// `No X on Y` where none has. Without `on Y` every cell will do.
fn holds<B: Board>(board: &B, win: &Win) -> bool
    ensures { result ≡ holds (B.grid board.now) (win_shown win.now) }
{
    match win.quantifier {
        Quantifier::No => !some_met(board, win),
        Quantifier::Some => some_met(board, win),
        Quantifier::All => all_met(board, win),
    }
}

/// Whether all win conditions hold of a board; without any they do.
pub fn won<B: Board>(wins: &[Win], board: &B) -> bool
    ensures { result ≡ won (wins_shown wins.now) (B.grid board.now) }
{
    for win in wins {
        if !holds(board, win) {
            return false;
        }
    }
    true
}

/// Whether win conditions are written, and all hold of a board.
pub fn is_won<B: Board>(wins: &[Win], board: &B) -> bool
    ensures { result ≡ is_won (wins_shown wins.now) (B.grid board.now) }
{
    !wins.is_empty() && won(wins, board)
}
