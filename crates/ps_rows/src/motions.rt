//! The five planes of a layer's motions.

ghost use Rattle.std.specs.Prelude.{◌≡◌, ◌+◌, ◌*◌, ◌/◌, ◌%◌, ◌^◌, ◌<◌, ◌≤◌, ℕ, None, vec_len};
ghost use Rattle.ps_board.specs.ColumnSets.{no_columns};
ghost use Rattle.ps_rows.specs.Planes.{has_cell, row_of, with_cell_in};
ghost use Rattle.ps_rows.specs.Showing.{first_motion, motion_plane, motion_planes};

use crate::planes::Planes;
use ps_board::ColumnWords;
use ps_model::{Direction, Motion};

/// The plane of a motion, behind the first plane of its layer; none, of rest.
pub fn motion_plane(first: u32, motion: Motion) -> Option<u32>
    requires { first + 4 < 2 ^ 32 }
    ensures { result ≡ motion_plane first motion }
{
    let behind = match motion {
        Motion::Still => return None,
        Motion::Going(Direction::Up) => 0,
        Motion::Going(Direction::Down) => 1,
        Motion::Going(Direction::Left) => 2,
        Motion::Going(Direction::Right) => 3,
        Motion::Acting => 4,
    };
    Some(first + behind)
}

/// The first motion whose plane has a cell.
pub fn first_motion<W: ColumnWords>(planes: &Planes<W>, cell: u32, first: u32) -> Motion
    requires few { first + 4 < 2 ^ 32 }
    requires planes { (first + 5) * planes.now.height ≤ vec_len planes.now.words }
    ensures { result ≡ first_motion (has_cell planes.now.height planes.now.words.items cell) first }
{
    if planes.has_cell(cell, first) {
        return Motion::Going(Direction::Up);
    }
    if planes.has_cell(cell, first + 1) {
        return Motion::Going(Direction::Down);
    }
    if planes.has_cell(cell, first + 2) {
        return Motion::Going(Direction::Left);
    }
    if planes.has_cell(cell, first + 3) {
        return Motion::Going(Direction::Right);
    }
    if planes.has_cell(cell, first + 4) {
        return Motion::Acting;
    }
    Motion::Still
}

/// Gives a cell this motion, whose row has no motion.
fn add_motion<W: ColumnWords>(planes: &mut Planes<W>, cell: u32, first: u32, motion: Motion)
    requires column { cell / planes.old.height < W.limit }
    requires few { first + 4 < 2 ^ 32 }
    requires planes { (first + 5) * planes.old.height ≤ vec_len planes.old.words }
    requires rest { let p = planes.old in (plane : ℕ) → first ≤ plane → plane ≤ first + 4 →
        row_of p.words.items (plane * p.height + cell % p.height) ≡ no_columns }
    ensures words { let p = planes.old in
        planes.new.words.items ≡
        with_cell_in p.height cell (motion_plane first motion) p.words.items (motion_planes first) }
    ensures height { planes.new.height ≡ planes.old.height }
    ensures count { vec_len planes.new.words ≡ vec_len planes.old.words }
{
    if let Some(plane) = motion_plane(first, motion) {
        planes.put_cell(cell, plane);
    }
}

/// Gives a cell this motion alone. Where the row is known to have no motion, no plane but the motion's is looked at.
pub fn choose_motion<W: ColumnWords>(planes: &mut Planes<W>, cell: u32, first: u32, motion: Motion)
    requires column { cell / planes.old.height < W.limit }
    requires few { first + 4 < 2 ^ 32 }
    requires planes { (first + 5) * planes.old.height ≤ vec_len planes.old.words }
    ensures words { let p = planes.old in
        planes.new.words.items ≡
        with_cell_in p.height cell (motion_plane first motion) p.words.items (motion_planes first) }
    ensures height { planes.new.height ≡ planes.old.height }
    ensures count { vec_len planes.new.words ≡ vec_len planes.old.words }
{
    let row = cell % planes.height;
    if planes.is_unmarked(first, row) {
        add_motion(planes, cell, first, motion);
        return;
    }
    let motions = [first, first + 1, first + 2, first + 3, first + 4];
    planes.choose_plane(cell, &motions, motion_plane(first, motion));
}

/// Brings a cell to rest. Unlike `choose_motion` it doesn't ask first whether the row rests: an object that has moved
/// had a motion there.
pub fn clear_motion<W: ColumnWords>(planes: &mut Planes<W>, cell: u32, first: u32)
    requires column { cell / planes.old.height < W.limit }
    requires few { first + 4 < 2 ^ 32 }
    requires planes { (first + 5) * planes.old.height ≤ vec_len planes.old.words }
    ensures words { let p = planes.old in
        planes.new.words.items ≡ with_cell_in p.height cell None p.words.items (motion_planes first) }
    ensures height { planes.new.height ≡ planes.old.height }
    ensures count { vec_len planes.new.words ≡ vec_len planes.old.words }
{
    let motions = [first, first + 1, first + 2, first + 3, first + 4];
    planes.choose_plane(cell, &motions, None);
}
