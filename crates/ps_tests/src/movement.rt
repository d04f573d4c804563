//! Movements that were worked out by hand, and how many passes each takes.

ghost use Rattle.std.specs.Prelude.{◌<◌, ◌≤◌};
ghost use Rattle.ps_model.specs.declared.limits.TheConstants.{LAYER_LIMIT, SIDE_LIMIT};

use ps_board::{Board, Direction, LayerId, ListBoard, Motion, ObjectId};
use ps_move::slide;
use std::alloc::Global;
use std::process::Abort;
use std::test::Fail;

/// What a letter stands for: `A` goes right, `B` left, `C` up, `D` down, `X` acts, `W` does nothing.
fn piece(letter: u8) -> Option<(ObjectId, Motion)> {
    match letter {
        b'A' => Some((ObjectId(0), Motion::Going(Direction::Right))),
        b'B' => Some((ObjectId(1), Motion::Going(Direction::Left))),
        b'C' => Some((ObjectId(2), Motion::Going(Direction::Up))),
        b'D' => Some((ObjectId(3), Motion::Going(Direction::Down))),
        b'X' => Some((ObjectId(4), Motion::Acting)),
        b'W' => Some((ObjectId(5), Motion::Still)),
        _ => None,
    }
}

fn letter_of(rows: &[&str], x: u32, row: u32) -> u8 {
    let Some(row) = rows.get(row as usize) else {
        return b'.';
    };
    match row.as_bytes().get(x as usize) {
        Some(letter) => *letter,
        None => b'.',
    }
}

fn lay(board: &mut ListBoard, layer: u32, x: u32, y: u32, letter: u8) {
    let (width, height) = board.size();
    if x < width && y < height && layer < board.layers() {
        if let Some((object, motion)) = piece(letter) {
            board.put(x * height + y, LayerId(layer), Some(object), motion);
        }
    }
}

fn look<B: Board>(board: &B, layer: u32, x: u32, y: u32) -> Option<(ObjectId, Motion)> {
    let (width, height) = board.size();
    if x < width && y < height && layer < board.layers() {
        let cell = x * height + y;
        let object = board.object(cell, LayerId(layer))?;
        return Some((object, board.motion(cell, LayerId(layer))));
    }
    None
}

/// Slides a board, its rows given from the top and its layers from the lowest, and compares.
fn check(
    rt: &impl Abort,
    alloc: Global,
    size: (u32, u32, u32),
    before: &[&str],
    after: &[&str],
    passes: u32,
) -> Result<(), Fail>
    requires width { (0 < size.0) × (size.0 ≤ SIDE_LIMIT) }
    requires height { (0 < size.1) × (size.1 ≤ SIDE_LIMIT) }
    requires layers { (0 < size.2) × (size.2 ≤ LAYER_LIMIT) }
{
    let (width, height, layers) = size;
    let mut board = ListBoard::try_empty(alloc, width, height, layers, &[])?;
    for layer in 0..layers {
        for y in 0..height {
            for x in 0..width {
                lay(
                    &mut board,
                    layer,
                    x,
                    y,
                    letter_of(before, x, layer * height + y),
                );
            }
        }
    }
    let slid = slide(&mut board);
    for layer in 0..layers {
        for y in 0..height {
            for x in 0..width {
                let wanted = piece(letter_of(after, x, layer * height + y)).map(|found| (
                    found.0,
                    Motion::Still,
                ));
                assert_eq!(rt;
                    look(&board, layer, x, y),
                    wanted,
                    "at column {x}, row {y}, layer {layer}"
                );
            }
        }
    }
    assert_eq!(rt; slid.passes_used(), passes);
    Ok(())
}

#[test]
fn the_first_of_two_enters_a_bare_cell(rt: HostRuntime) -> Result<(), Fail> {
    check(&rt, rt.alloc(), (3, 1, 1), &["A.B"], &[".AB"], 2)
}

#[test]
fn the_next_in_order_enters_a_cell_that_is_left(rt: HostRuntime) -> Result<(), Fail> {
    check(
        &rt,
        rt.alloc(),
        (3, 2, 1),
        &["...", "ACB"],
        &[".C.", "AB."],
        2,
    )
}

#[test]
fn a_chain_moves(rt: HostRuntime) -> Result<(), Fail> {
    check(&rt, rt.alloc(), (3, 1, 1), &["AA."], &[".AA"], 3)?;
    check(&rt, rt.alloc(), (4, 1, 1), &[".BBB"], &["BBB."], 2)
}

#[test]
fn a_chain_that_ends_at_something_stays(rt: HostRuntime) -> Result<(), Fail> {
    check(&rt, rt.alloc(), (3, 1, 1), &["AAW"], &["AAW"], 1)
}

#[test]
fn a_row_of_63_moves_in_64_passes(rt: HostRuntime) -> Result<(), Fail> {
    let before = "AAAAAAAAAAAAAAAAAAAAAAAAAAAAAAAAAAAAAAAAAAAAAAAAAAAAAAAAAAAAAAA.";
    let after = ".AAAAAAAAAAAAAAAAAAAAAAAAAAAAAAAAAAAAAAAAAAAAAAAAAAAAAAAAAAAAAAA";
    check(&rt, rt.alloc(), (64, 1, 1), &[before], &[after], 64)
}

#[test]
fn layers_do_not_act_on_one_another(rt: HostRuntime) -> Result<(), Fail> {
    check(&rt, rt.alloc(), (2, 1, 2), &["A.", ".B"], &[".A", "B."], 2)?;
    check(
        &rt,
        rt.alloc(),
        (4, 1, 2),
        &["AA.W", ".BBB"],
        &[".AAW", "BBB."],
        3,
    )
}

#[test]
fn two_never_change_places_and_no_ring_turns(rt: HostRuntime) -> Result<(), Fail> {
    check(&rt, rt.alloc(), (2, 1, 1), &["AB"], &["AB"], 1)?;
    check(&rt, rt.alloc(), (2, 2, 1), &["AD", "CB"], &["AD", "CB"], 1)
}

#[test]
fn nothing_leaves_the_board_or_acts_its_way(rt: HostRuntime) -> Result<(), Fail> {
    check(&rt, rt.alloc(), (2, 2, 1), &["BC", "DA"], &["BC", "DA"], 1)?;
    check(&rt, rt.alloc(), (3, 1, 1), &["X.W"], &["X.W"], 1)
}
