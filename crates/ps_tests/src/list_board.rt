//! Boards as a list of slots: what one shows after each call.

use crate::boards::{BARE, Slot, differing_in, expect_set, slot_of};
use ps_board::{Board, LayerId, ListBoard, Motion, ObjectId};
use ps_model::Direction;
use std::test::Fail;

const CRATE: ObjectId = ObjectId(7);

const PUSHED: Motion = Motion::Going(Direction::Left);

/// What the slot of a crate that is pushed shows.
const PUSHED_CRATE: Slot = (Some(CRATE), PUSHED);

#[test]
fn an_empty_board_has_no_object(rt: HostRuntime) -> Result<(), Fail> {
    let board = ListBoard::try_empty(rt.alloc(), 2, 1, 4, &[])?;
    assert_eq!(rt; board.size(), (2, 1));
    assert_eq!(rt; board.layers(), 4);
    for cell in 0..2u32 {
        for layer in 0..4u32 {
            assert_eq!(rt; slot_of(&board, cell, layer), Some(BARE));
        }
    }
    Ok(())
}

#[test]
fn put_sets_one_slot_and_no_other(rt: HostRuntime) -> Result<(), Fail> {
    let mut board = ListBoard::try_empty(rt.alloc(), 2, 1, 4, &[])?;
    board.put(1, LayerId(2), Some(CRATE), PUSHED);
    for cell in 0..2u32 {
        for layer in 0..4u32 {
            let here = cell == 1 && layer == 2;
            let wanted = if here { PUSHED_CRATE } else { BARE };
            assert_eq!(rt; slot_of(&board, cell, layer), Some(wanted));
        }
    }
    Ok(())
}

#[test]
fn a_copy_is_equal_and_apart(rt: HostRuntime) -> Result<(), Fail> {
    let mut board = ListBoard::try_empty(rt.alloc(), 1, 2, 1, &[])?;
    board.put(1, LayerId(0), Some(CRATE), PUSHED);
    let copy = board.try_copy(rt.alloc())?;
    board.put(1, LayerId(0), None, Motion::Still);
    assert_eq!(rt; copy.size(), (1, 2));
    assert_eq!(rt; copy.layers(), 1);
    assert_eq!(rt; slot_of(&copy, 0, 0), Some(BARE));
    assert_eq!(rt; slot_of(&copy, 1, 0), Some(PUSHED_CRATE));
    Ok(())
}

#[test]
fn copies_into_another_and_rests(rt: HostRuntime) -> Result<(), Fail> {
    let mut board = ListBoard::try_empty(rt.alloc(), 1, 2, 1, &[])?;
    let mut other = ListBoard::try_empty(rt.alloc(), 1, 2, 1, &[])?;
    board.put(1, LayerId(0), Some(CRATE), PUSHED);
    assert!(rt; !board.same(&other));
    board.copy_into(&mut other);
    assert!(rt; board.same(&other));
    board.clear_moves();
    assert!(rt; !board.same(&other));
    assert_eq!(rt; slot_of(&board, 1, 0), Some((Some(CRATE), Motion::Still)));
    assert_eq!(rt; slot_of(&other, 0, 0), Some(BARE));
    assert_eq!(rt; slot_of(&other, 1, 0), Some(PUSHED_CRATE));
    Ok(())
}

#[test]
fn tells_which_columns_differ(rt: HostRuntime) -> Result<(), Fail> {
    let mut board = ListBoard::try_empty(rt.alloc(), 2, 3, 1, &[])?;
    let other = board.try_copy(rt.alloc())?;
    board.put(4, LayerId(0), Some(CRATE), Motion::Still);
    assert!(rt; board.is_alike(&other));
    for (row, wanted) in [(0, false), (1, true), (2, false)] {
        let columns = differing_in(&board, &other, row).expect(
            &rt,
            "a row of boards that are alike",
        );
        expect_set(&rt, &columns, &[false, wanted]);
    }
    let wider = ListBoard::try_empty(rt.alloc(), 3, 3, 1, &[])?;
    assert!(rt; !board.is_alike(&wider));
    Ok(())
}
