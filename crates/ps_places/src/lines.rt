//! The lines of a board along an axis, and the cells on them.

ghost use Rattle.std.specs.Prelude.{◌≡◌, ◌+◌, ◌*◌, ◌≤◌};
ghost use Rattle.ps_model.specs.declared.limits.TheConstants.{SIDE_LIMIT};
ghost use Rattle.ps_places.specs.Lines.{cell_on, step_along};

use ps_model::SIDE_LIMIT;
use ps_program::Axis;

/// The numbers from one cell of a line to the next, on a board so high.
pub fn step_along(axis: Axis, height: u32) -> u32
    requires { height ≤ SIDE_LIMIT }
    ensures value { result ≡ step_along axis height }
    ensures near { result ≤ SIDE_LIMIT }
{
    match axis {
        Axis::Down => 1,
        Axis::Right => height,
    }
}

/// The number of the cell at a position of a line, on a board so high.
pub fn cell_on(axis: Axis, height: u32, line: u8, position: u8) -> u32
    requires { height ≤ SIDE_LIMIT }
    ensures value { result ≡ cell_on axis height line position }
    ensures near { result ≤ 256 * SIDE_LIMIT + 256 }
{
    match axis {
        Axis::Down => u32::from(line) * height + u32::from(position),
        Axis::Right => u32::from(position) * height + u32::from(line),
    }
}
