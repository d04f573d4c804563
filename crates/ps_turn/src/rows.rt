//! Rows of a board: the columns in whose cells stands what a name stands for.

ghost use Rattle.std.specs.Prelude.{◌≡◌, ◌<◌, option_map};
ghost use Rattle.ps_model.specs.board.Grid.{IsGrid};
ghost use Rattle.ps_model.specs.board.Winning.{is_in, is_place};
ghost use Rattle.ps_names.specs.Shown.{meaning_shown};
ghost use Rattle.ps_turn.specs.RowsOfCells.{NonePassOutside, row_cells, has_each};

use crate::standing::{columns_with, rows_with};
use ps_board::{Board, Columns};
use ps_model::ObjectId;
use ps_names::Meaning;
use std::slice;

/// The columns of a row in whose cells each of the objects stands.
fn columns_with_each<B: Board>(board: &B, objects: &[ObjectId], row: u32) -> Columns<B::Words>
    requires { row < (B.grid board.now).height }
    ensures { result ≡ row_cells (has_each objects.now) (B.grid board.now) row }
{
    let (width, _) = board.size();
    let mut common = Columns::below(width);
    for index in 0..objects.len() {
        common = common.both(columns_with(board, slice::from_ref(&objects[index]), row));
    }
    common
}

/// The columns of a row in whose cells stands what a name stands for: its object, all objects of an aggregate, some
/// object of a property.
pub fn columns_meant<B: Board>(board: &B, meaning: &Meaning, row: u32) -> Columns<B::Words>
    requires { row < (B.grid board.now).height }
    ensures { result ≡ row_cells (is_in (meaning_shown meaning.now)) (B.grid board.now) row }
{
    match meaning {
        Meaning::One(object) => columns_with(board, slice::from_ref(object), row),
        Meaning::All { objects, .. } => columns_with_each(board, objects.as_slice(), row),
        Meaning::Any { objects, .. } => columns_with(board, objects.as_slice(), row),
    }
}

/// Rows of the board, as a set of their numbers, outside of which not all of the objects stand.
fn rows_with_each<B: Board>(board: &B, objects: &[ObjectId]) -> Columns<B::Words>
    ensures { NonePassOutside (has_each objects.now) (B.grid board.now) result }
{
    let (_width, height) = board.size();
    let mut common = Columns::below(height);
    for index in 0..objects.len() {
        common = common.both(board.rows_holding(objects[index]));
    }
    common
}

/// Rows of the board, as a set of their numbers, outside of which nothing stands that a name stands for.
pub fn rows_meant<B: Board>(board: &B, meaning: &Meaning) -> Columns<B::Words>
    ensures { NonePassOutside (is_in (meaning_shown meaning.now)) (B.grid board.now) result }
{
    match meaning {
        Meaning::One(object) => rows_with(board, slice::from_ref(object)),
        Meaning::All { objects, .. } => rows_with_each(board, objects.as_slice()),
        Meaning::Any { objects, .. } => rows_with(board, objects.as_slice()),
    }
}

/// The columns of a row whose cells have what the name after `on` stands for; without such a name every column.
pub fn columns_of_place<B: Board>(board: &B, place: &Option<Meaning>, row: u32) -> Columns<B::Words>
    requires { row < (B.grid board.now).height }
    ensures { result ≡ row_cells (is_place (option_map meaning_shown place.now)) (B.grid board.now) row }
{
    let (width, _) = board.size();
    match place {
        Some(meaning) => columns_meant(board, meaning, row),
        None => Columns::below(width),
    }
}
