//! What movement words mean in a direction.

ghost use Rattle.std.specs.Prelude.{◌≡◌, ◌∷◌, [], IfOk, slice_index_or};
ghost use Rattle.ps_model.specs.declared.pieces.Motion.TheVariants.{Still};
ghost use Rattle.ps_model.specs.meaning.Directions.{opposite, left_of, along, turned};

use ps_model::{Direction, Memory, Motion, MovementWord};
use std::alloc::Global;

/// The other way.
fn opposite(direction: Direction) -> Direction
    ensures { result ≡ opposite direction }
{
    match direction {
        Direction::Up => Direction::Down,
        Direction::Down => Direction::Up,
        Direction::Left => Direction::Right,
        Direction::Right => Direction::Left,
    }
}

/// A quarter turn to the left.
fn left_of(direction: Direction) -> Direction
    ensures { result ≡ left_of direction }
{
    match direction {
        Direction::Up => Direction::Left,
        Direction::Down => Direction::Right,
        Direction::Left => Direction::Down,
        Direction::Right => Direction::Up,
    }
}

/// The two moves along a direction, up or left first.
fn along(direction: Direction) -> (Motion, Motion)
    ensures { result.0 ∷ result.1 ∷ [] ≡ along direction }
{
    match direction {
        Direction::Up | Direction::Down => (
            Motion::Going(Direction::Up),
            Motion::Going(Direction::Down),
        ),
        Direction::Left | Direction::Right => (
            Motion::Going(Direction::Left),
            Motion::Going(Direction::Right),
        ),
    }
}

/// One move.
fn one(alloc: Global, motion: Motion) -> Result<Vec<Motion>, Memory>
    ensures { IfOk result (λ moves. moves.items ≡ motion ∷ []) }
{
    let moves = Vec::from_array(alloc, [motion])?;
    Ok(moves)
}

/// Two moves.
fn two(alloc: Global, both: (Motion, Motion)) -> Result<Vec<Motion>, Memory>
    ensures { IfOk result (λ moves. moves.items ≡ both.0 ∷ both.1 ∷ []) }
{
    let moves = Vec::from_array(alloc, [both.0, both.1])?;
    Ok(moves)
}

/// The moves that a word leaves the choice of in a direction, in their order; for most words one.
pub fn turned(
    alloc: Global,
    direction: Direction,
    word: MovementWord,
) -> Result<Vec<Motion>, Memory>
    ensures { IfOk result (λ moves. moves.items ≡ turned direction word) }
{
    match word {
        MovementWord::Parallel => two(alloc, along(direction)),
        MovementWord::Perpendicular => two(alloc, along(left_of(direction))),
        MovementWord::Horizontal => two(alloc, along(Direction::Left)),
        MovementWord::Vertical => two(alloc, along(Direction::Up)),
        MovementWord::Moving => {
            let moves = Vec::from_array(
                alloc,
                [
                    Motion::Going(Direction::Up),
                    Motion::Going(Direction::Down),
                    Motion::Going(Direction::Left),
                    Motion::Going(Direction::Right),
                    Motion::Acting,
                ],
            )?;
            Ok(moves)
        }
        MovementWord::Orthogonal => {
            let moves = Vec::from_array(
                alloc,
                [
                    Motion::Going(Direction::Up),
                    Motion::Going(Direction::Down),
                    Motion::Going(Direction::Left),
                    Motion::Going(Direction::Right),
                ],
            )?;
            Ok(moves)
        }
        MovementWord::Forwards
        | MovementWord::Backwards
        | MovementWord::TurnedLeft
        | MovementWord::TurnedRight
        | MovementWord::Up
        | MovementWord::Down
        | MovementWord::Left
        | MovementWord::Right
        | MovementWord::Action
        | MovementWord::Stationary => one(alloc, first_turned(direction, word)),
    }
}

/// The first of the moves of a word in a direction.
pub fn first_turned(direction: Direction, word: MovementWord) -> Motion
    ensures { result ≡ slice_index_or (turned direction word) 0 Still }
{
    match word {
        MovementWord::Forwards => Motion::Going(direction),
        MovementWord::Backwards => Motion::Going(opposite(direction)),
        MovementWord::TurnedLeft => Motion::Going(left_of(direction)),
        MovementWord::TurnedRight => Motion::Going(opposite(left_of(direction))),
        MovementWord::Parallel => along(direction).0,
        MovementWord::Perpendicular => along(left_of(direction)).0,
        MovementWord::Up => Motion::Going(Direction::Up),
        MovementWord::Down => Motion::Going(Direction::Down),
        MovementWord::Left => Motion::Going(Direction::Left),
        MovementWord::Right => Motion::Going(Direction::Right),
        MovementWord::Action => Motion::Acting,
        MovementWord::Stationary => Motion::Still,
        MovementWord::Moving => Motion::Going(Direction::Up),
        MovementWord::Orthogonal => Motion::Going(Direction::Up),
        MovementWord::Horizontal => Motion::Going(Direction::Left),
        MovementWord::Vertical => Motion::Going(Direction::Up),
    }
}
