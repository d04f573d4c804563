//! Rules turned round: those that face up or left are compiled facing down or right, their rows from their other ends.

ghost use Rattle.std.specs.Prelude.{◌≡◌};
ghost use Rattle.ps_compile.specs.CompactPrograms.{faces_back};
ghost use Rattle.ps_program.specs.Axes.{direction_of};
ghost use Rattle.ps_compile.specs.TurnedRows.{facing_forwards, from_end};

use ps_model::Direction;
use ps_program::Axis;
use ps_text::List;

/// Whether the direction is up or left.
pub fn faces_back(direction: Direction) -> bool
    ensures { result ≡ faces_back direction }
{
    match direction {
        Direction::Up => true,
        Direction::Down => false,
        Direction::Left => true,
        Direction::Right => false,
    }
}

/// The axis along which a rule of that direction lies.
pub fn axis_of(direction: Direction) -> Axis
    ensures { direction_of result ≡ facing_forwards direction }
{
    match direction {
        Direction::Up => Axis::Down,
        Direction::Down => Axis::Down,
        Direction::Left => Axis::Right,
        Direction::Right => Axis::Right,
    }
}

/// The list of these items, from the other end where the rule is turned round.
pub fn from_end<T>(items: Vec<T>, backwards: bool) -> List<T>
    ensures { result ≡ from_end backwards items.items }
{
    let mut made = items;
    if backwards {
        made.reverse();
    }
    List::from_vec(made)
}
