//! The movement of a turn: each object whose motion is a direction goes one cell on, where that cell is free.
//!
//! No layer has to do with another, and one is taken after the other. An object that has moved is at rest, so that it
//! goes one cell at most. Of several that want to enter a cell one may: the one in the cell of least number. Where an
//! object left the cell, it is the next one after it, and after the last cell the first. So it would be if all cells
//! were visited in the order of their numbers, in passes, until one moves nothing. Here it is one visit to each object.
//! Where one can go, the one that waits for the cell which it leaves, and may, enters that at once, and so on. So a row
//! of objects that push one another is gone through once, from its front.

ghost use Rattle.std.specs.Prelude.{◌≡◌, ℕ, ◌+◌, ◌*◌, ◌^◌, ◌<◌, ◌≤◌, IfSome, None};
ghost use Rattle.ps_model.specs.declared.pieces.Slot.TheVariants.{Bare};
ghost use Rattle.ps_model.specs.board.Grid.{IsGrid, IsPlace, at_rest, neighbour, slot_at};
ghost use Rattle.ps_model.specs.board.Movement.{slid};
ghost use Rattle.ps_model.specs.board.WeakMovement.{IsWeaklySlid};
ghost use Rattle.ps_model.specs.meaning.Directions.{opposite};
ghost use Rattle.ps_board.specs.ColumnSets.{columns_below};
ghost use Rattle.ps_move.specs.Entering.{Comes, IsFirst, IsNext, IsWantedByNone};
ghost use Rattle.ps_move.specs.Parts.{ArePasses, IsChain, IsPart, IsStuck, IsStuckRow};
ghost use Rattle.ps_move.specs.Visits.{way, going_count};

use ps_board::{Board, Columns, Direction, LayerId, Motion};
use std::marker::Model;

/// How a movement went. A contract sees the number of its passes.
#[derive(Debug, Drop)]
pub struct Slid {
    passes: u32,
}

impl Model for Slid {
    ghost use Rattle.std.specs.Prelude.{ℕ};

    ghost Value = { ℕ };

    ghost view = { λ s. s.passes };
}

impl Slid {
    /// How many passes over all cells, each of them over all layers, it would take until one moves nothing, that one
    /// counted, too. So they are those of the layer that has the most.
    pub fn passes_used(&self) -> u32
        ensures { result ≡ self.now }
    {
        self.passes
    }
}

/// Moves the objects of a board, and brings all to rest.
///
/// Each object whose motion is a direction goes one cell on in its layer. That cell has to be on the board, and to have
/// nothing on the layer or become free in the same movement. Nothing else moves: two objects never change places, no
/// ring of objects turns, and an object that acts stays where it is. (PuzzleScript documentation, collision layers.)
///
/// `exact` says where everything stands afterwards, and `slid` what that means for each object: it stands where it
/// stood or in its target, and none is lost or made.
///
/// No memory is taken.
pub fn slide<B: Board>(board: &mut B) -> Slid
    ensures exact { B.grid board.new ≡ slid (B.grid board.old) }
    ensures slid { IsWeaklySlid (B.grid board.old) (B.grid board.new) }
    ensures some_pass { 0 < result }
    ensures one_pass { result ≡ 1 → B.grid board.new ≡ at_rest (B.grid board.old) }
    ensures few_passes { result ≤ going_count (B.grid board.old) + 1 }
    ensures table { B.table board.new ≡ B.table board.old }
    ensures origin { B.origin board.new ≡ B.origin board.old }
{
    let (_, height) = board.size();
    let rows = Columns::below(height);
    let mut passes = 1;
    for layer in 0..board.layers() {
        let moved = slide_layer(board, LayerId(layer), rows);
        passes = most_passes(passes, moved);
    }
    board.clear_moves();
    Slid { passes }
}

/// The passes of some layers and of one more, in which `moved` moved an object: as many as the one with the most has.
fn most_passes(passes: u32, moved: u32) -> u32
    requires some { 1 ≤ passes }
    requires few { moved + 1 < 2 ^ 32 }
    ensures before { passes ≤ result }
    ensures here { moved + 1 ≤ result }
    ensures few { result ≤ passes + moved }
{
    passes.max(moved + 1)
}

/// The larger of two numbers of passes.
fn most(first: u32, second: u32) -> u32
    ensures first { first ≤ result }
    ensures second { second ≤ result }
    ensures sum { result ≤ first + second }
{
    first.max(second)
}

/// Lets the objects of a layer go, row by row of all these, and answers how many passes moved some.
fn slide_layer<B: Board>(board: &mut B, layer: LayerId, rows: Columns<B::Words>) -> u32
    requires shape { IsGrid (B.grid board.old) }
    requires layer { layer.0 < (B.grid board.old).layers }
    requires rows { rows ≡ columns_below (B.grid board.old).height }
    ensures passes { ArePasses result (B.grid board.old) (B.grid board.new) layer.0 (layer.0 + 1) }
    ensures table { B.table board.new ≡ B.table board.old }
    ensures origin { B.origin board.new ≡ B.origin board.old }
{
    let mut left = rows.both(board.rows_moving_on(layer));
    let mut passes = 0u32;
    while let Some(row) = left.take_first() {
        let moved = slide_row(board, layer, row);
        passes = most(passes, moved);
    }
    passes
}

/// Lets the objects of a row go, and those that wait for them. Answers how many passes moved some.
fn slide_row<B: Board>(board: &mut B, layer: LayerId, row: u32) -> u32
    requires shape { IsGrid (B.grid board.old) }
    requires layer { layer.0 < (B.grid board.old).layers }
    requires row { row < (B.grid board.old).height }
    ensures part { IsPart result (B.grid board.old) (B.grid board.new) layer.0 }
    ensures stuck { IsStuckRow (B.grid board.new) layer.0 row }
    ensures table { B.table board.new ≡ B.table board.old }
    ensures origin { B.origin board.new ≡ B.origin board.old }
{
    let (_, height) = board.size();
    let mut left = board.movers(layer, row);
    let mut passes = 0u32;
    while let Some(column) = left.take_first() {
        let moved = visit(board, column * height + row, layer);
        passes = most(passes, moved);
    }
    passes
}

/// Lets an object go to the cell that the object of a cell can go to at once, if there is one: the first that wants to
/// enter it. Then those go that wait for one another. Answers how many passes moved some: none, or the first one, and
/// those that the others take.
fn visit<B: Board>(board: &mut B, cell: u32, layer: LayerId) -> u32
    requires shape { IsGrid (B.grid board.old) }
    requires place { IsPlace (B.grid board.old) cell layer.0 }
    ensures part { IsPart result (B.grid board.old) (B.grid board.new) layer.0 }
    ensures stuck { IsStuck (B.grid board.new) layer.0 cell }
    ensures table { B.table board.new ≡ B.table board.old }
    ensures origin { B.origin board.new ≡ B.origin board.old }
{
    let Some(to) = way(board, cell, layer) else {
        return 0;
    };
    let Some(first) = first_to_enter(board, to, layer) else {
        return 0;
    };
    board.shift(first, to, layer);
    1 + follow(board, first, layer)
}

/// Lets the object go that enters a cell which another has left, and so on with the cell that it leaves. Answers how
/// many passes that takes, beside the one in which the first cell was left: the next one comes in the same pass, where
/// it stands after, and else in a pass more.
fn follow<B: Board>(board: &mut B, left: u32, layer: LayerId) -> u32
    requires shape { IsGrid (B.grid board.old) }
    requires place { IsPlace (B.grid board.old) left layer.0 }
    requires bare { slot_at (B.grid board.old) left layer.0 ≡ Bare }
    ensures chain { IsChain result (B.grid board.old) (B.grid board.new) layer.0 left None }
    ensures table { B.table board.new ≡ B.table board.old }
    ensures origin { B.origin board.new ≡ B.origin board.old }
{
    let mut hole = left;
    let mut passes = 0u32;
    while let Some(from) = next_to_enter(board, hole, layer) {
        board.shift(from, hole, layer);
        passes += passes_more(from, hole);
        hole = from;
    }
    passes
}

/// How many passes later than a cell was left the object comes that enters it: it comes in the same one, if it stands
/// after that cell.
fn passes_more(from: u32, left: u32) -> u32
    ensures { result ≤ 1 }
{
    if left < from { 0 } else { 1 }
}

/// The cell of least number whose object wants to enter this one.
fn first_to_enter<B: Board>(board: &B, to: u32, layer: LayerId) -> Option<u32>
    requires shape { IsGrid (B.grid board.now) }
    requires place { IsPlace (B.grid board.now) to layer.0 }
    ensures some { IfSome result (λ from. IsFirst (B.grid board.now) layer.0 to from) }
    ensures none { result ≡ None → IsWantedByNone (B.grid board.now) layer.0 to }
{
    if let Some(from) = comer(board, to, layer, Direction::Right) {
        return Some(from);
    }
    if let Some(from) = comer(board, to, layer, Direction::Down) {
        return Some(from);
    }
    if let Some(from) = comer(board, to, layer, Direction::Up) {
        return Some(from);
    }
    comer(board, to, layer, Direction::Left)
}

/// The cell whose object enters this one, which was left: the next one after it whose object wants to, or else the
/// first. Where nothing on the layer is about to move there is none.
fn next_to_enter<B: Board>(board: &B, to: u32, layer: LayerId) -> Option<u32>
    requires shape { IsGrid (B.grid board.now) }
    requires place { IsPlace (B.grid board.now) to layer.0 }
    ensures some { IfSome result (λ from. IsNext (B.grid board.now) layer.0 to from) }
    ensures none { result ≡ None → IsWantedByNone (B.grid board.now) layer.0 to }
{
    if board.rows_moving_on(layer).is_empty() {
        return None;
    }
    if let Some(from) = comer(board, to, layer, Direction::Up) {
        return Some(from);
    }
    if let Some(from) = comer(board, to, layer, Direction::Left) {
        return Some(from);
    }
    if let Some(from) = comer(board, to, layer, Direction::Right) {
        return Some(from);
    }
    comer(board, to, layer, Direction::Down)
}

/// The cell whose object goes to this one in a direction, if one does.
fn comer<B: Board>(board: &B, to: u32, layer: LayerId, direction: Direction) -> Option<u32>
    requires shape { IsGrid (B.grid board.now) }
    requires place { IsPlace (B.grid board.now) to layer.0 }
    ensures some { IfSome result (λ from. Comes (B.grid board.now) layer.0 to direction from) }
    ensures none { result ≡ None → (from : ℕ) → Comes (B.grid board.now) layer.0 to direction from → ⊥ }
{
    if !board.may_go(layer, direction) {
        return None;
    }
    let Some(from) = neighbour(board, opposite(direction), to) else {
        return None;
    };
    if board.goes(from, layer, direction) {
        return Some(from);
    }
    None
}

/// The direction back.
fn opposite(direction: Direction) -> Direction
    ensures { result ≡ opposite direction }
{
    match direction {
        Direction::Up => Direction::Down,
        Direction::Down => Direction::Up,
        Direction::Left => Direction::Right,
        Direction::Right => Direction::Left,
    }
}

/// The cell that the object on a layer of a cell can go to at once: the one that it wants to go to, if nothing stands
/// there.
fn way<B: Board>(board: &B, cell: u32, layer: LayerId) -> Option<u32>
    requires { IsPlace (B.grid board.now) cell layer.0 }
    ensures value { result ≡ way (B.grid board.now) layer.0 cell }
    ensures within { IfSome result (λ to. to < (B.grid board.now).width * (B.grid board.now).height) }
{
    let Motion::Going(direction) = board.motion(cell, layer) else {
        return None;
    };
    let Some(to) = neighbour(board, direction, cell) else {
        return None;
    };
    match board.object(to, layer) {
        Some(_) => None,
        None => Some(to),
    }
}

/// The cell one step on in a direction, if it is on the board.
fn neighbour<B: Board>(board: &B, direction: Direction, cell: u32) -> Option<u32>
    requires { cell < (B.grid board.now).width * (B.grid board.now).height }
    ensures value { result ≡ neighbour (B.grid board.now) direction cell }
    ensures within { IfSome result (λ to. to < (B.grid board.now).width * (B.grid board.now).height) }
{
    let (width, height) = board.size();
    match direction {
        Direction::Up if 0 < cell % height => Some(cell - 1),
        Direction::Down if cell % height + 1 < height => Some(cell + 1),
        Direction::Left if 0 < cell / height => Some(cell - height),
        Direction::Right if cell / height + 1 < width => Some(cell + height),
        _ => None,
    }
}
