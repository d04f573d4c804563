//! The ways in which the parts of a row of a rule lie on a line of the board: the next one is sought among those where
//! each part fits now.

ghost use Rattle.std.specs.Prelude.{◌≡◌, ℕ, ◌<◌, ◌∷◌, [], All, false, length, true};
ghost use Rattle.ps_laws.specs.WholeRows.{HasCells};
ghost use Rattle.ps_places.specs.Lines.{line_count};
ghost use Rattle.ps_places.specs.RowPlaces.{part_sizes};
ghost use Rattle.ps_places.specs.Ways.{from_first, ways_behind, ways_from};
ghost use Rattle.ps_places.specs.FittingWays.{way_fits};
ghost use Rattle.ps_places.specs.Spaced.{IsSpaced};

use crate::parts::{least_position, part_fits};
use ps_match::{Columns, Scan};
use ps_program::{Axis, CompiledCell};
use ps_text::List;

/// Finds the least way of parts on a line, at positions of their sets, where each part fits, the first of them from a
/// position on. Answers whether there is one; if not, `way` is anything.
pub fn first_way<B: Scan>(
    board: &B,
    axis: Axis,
    line: u8,
    parts: &[List<CompiledCell>],
    sets: &[Columns<B::Words>],
    from: usize,
    way: &mut [u8],
) -> bool
    requires line { line < line_count axis (B.grid board.now) }
    requires sets { length sets.now ≡ length parts.now }
    requires way { length way.old ≡ length parts.now }
    requires whole { All HasCells parts.now }
    ensures found { let fits = way_fits (B.grid board.now) (B.table board.now) axis line parts.now in
        let sizes = part_sizes parts.now in
        result ≡ true →
        from_first fits (ways_from sets.now sizes from) ≡ way.new ∷ ways_behind sets.now sizes way.new }
    ensures none { let fits = way_fits (B.grid board.now) (B.table board.now) axis line parts.now in
        result ≡ false → from_first fits (ways_from sets.now (part_sizes parts.now) from) ≡ [] }
    ensures long { length way.new ≡ length parts.now }
    ensures spaced { result ≡ true → IsSpaced (part_sizes parts.now) from way.new }
{
    let Some((part, others)) = parts.split_first() else {
        return true;
    };
    let Some((set, more)) = sets.split_first() else {
        return false;
    };
    let cells = part.as_slice();
    let Some(position) = least_position(board, axis, line, cells, *set, from) else {
        return false;
    };
    let Some((at, rest)) = way.split_first_mut() else {
        return false;
    };
    *at = position;
    first_way(
        board,
        axis,
        line,
        others,
        more,
        usize::from(position) + cells.len(),
        rest,
    )
}

/// Goes on to the next way of parts on a line, at positions of their sets, where each part fits. Answers whether there
/// is one; if not, `way` is anything.
pub fn next_way<B: Scan>(
    board: &B,
    axis: Axis,
    line: u8,
    parts: &[List<CompiledCell>],
    sets: &[Columns<B::Words>],
    way: &mut [u8],
) -> bool
    requires line { line < line_count axis (B.grid board.now) }
    requires sets { length sets.now ≡ length parts.now }
    requires way { length way.old ≡ length parts.now }
    requires whole { All HasCells parts.now }
    ensures found { let fits = way_fits (B.grid board.now) (B.table board.now) axis line parts.now in
        let sizes = part_sizes parts.now in
        result ≡ true →
        from_first fits (ways_behind sets.now sizes way.old) ≡ way.new ∷ ways_behind sets.now sizes way.new }
    ensures none { let fits = way_fits (B.grid board.now) (B.table board.now) axis line parts.now in
        result ≡ false → from_first fits (ways_behind sets.now (part_sizes parts.now) way.old) ≡ [] }
    ensures long { length way.new ≡ length parts.now }
    ensures spaced { let sizes = part_sizes parts.now in
        result ≡ true → (least : ℕ) → IsSpaced sizes least way.old → IsSpaced sizes least way.new }
{
    let Some((part, others)) = parts.split_first() else {
        return false;
    };
    let Some((_set, more)) = sets.split_first() else {
        return false;
    };
    let Some((at, rest)) = way.split_first_mut() else {
        return false;
    };
    let from = usize::from(*at) + 1;
    // Where this part doesn't fit any more, no way behind that keeps its position does.
    if !others.is_empty() && part_fits(board, axis, line, part.as_slice(), *at) {
        if next_way(board, axis, line, others, more, rest) {
            return true;
        }
    }
    first_way(board, axis, line, parts, sets, from, way)
}
