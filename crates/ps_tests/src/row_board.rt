//! Boards of rows: what two tell of each other. A board may tell more rows and columns than differ, and fewer that are
//! alike; these don't.

use crate::boards::{BARE, differing_in, expect_set, slot_of};
use ps_board::{Board, OneWord};
use ps_model::{Direction, LayerId, Motion, ObjectId};
use ps_rows::RowBoard;
use std::test::Fail;

const PUSHED: Motion = Motion::Going(Direction::Left);

/// Three objects: two on the higher of two layers, and one on the lower.
const OWN_LAYERS: [LayerId; 3] = [LayerId(1), LayerId(0), LayerId(1)];

#[test]
fn brings_a_board_up_to_date_by_rows(rt: HostRuntime) -> Result<(), Fail> {
    let mut board = RowBoard::<OneWord>::try_empty(rt.alloc(), 2, 3, 2, &OWN_LAYERS)?;
    board.put(0, LayerId(0), Some(ObjectId(1)), PUSHED);
    board.put(4, LayerId(1), Some(ObjectId(2)), PUSHED);
    board.clear_moves();
    let mut other = board.try_copy(rt.alloc())?;
    board.put(1, LayerId(1), Some(ObjectId(0)), Motion::Still);
    board.put(4, LayerId(1), None, Motion::Still);
    board.clear_moves();
    let rows = board.rows_differing(&other);
    expect_set(&rt, &rows, &[false, true]);
    assert!(rt; !board.same_on(&other, &rows));
    board.copy_rows(&mut other, &rows);
    assert_eq!(rt;
        slot_of(&other, 0, 0),
        Some((Some(ObjectId(1)), Motion::Still))
    );
    assert_eq!(rt;
        slot_of(&other, 1, 1),
        Some((Some(ObjectId(0)), Motion::Still))
    );
    assert_eq!(rt; slot_of(&other, 4, 1), Some(BARE));
    assert!(rt; other.rows_holding(ObjectId(2)).is_empty());
    expect_set(&rt, &other.rows_touched(), &[]);
    assert!(rt; board.rows_differing(&other).is_empty());
    assert!(rt; board.same(&other));
    Ok(())
}

#[test]
fn copies_motions_where_rows_are_the_same(rt: HostRuntime) -> Result<(), Fail> {
    let mut board = RowBoard::<OneWord>::try_empty(rt.alloc(), 2, 3, 2, &OWN_LAYERS)?;
    board.put(0, LayerId(0), Some(ObjectId(1)), Motion::Still);
    let mut other = board.try_copy(rt.alloc())?;
    board.put(0, LayerId(0), Some(ObjectId(1)), PUSHED);
    let rows = board.rows_differing(&other);
    expect_set(&rt, &rows, &[]);
    assert!(rt; !board.same_on(&other, &rows));
    board.copy_rows(&mut other, &rows);
    expect_set(&rt, &other.rows_moving_on(LayerId(0)), &[true]);
    expect_set(&rt, &other.rows_moving_on(LayerId(1)), &[]);
    assert!(rt; board.same(&other));
    Ok(())
}

#[test]
fn tells_which_columns_differ(rt: HostRuntime) -> Result<(), Fail> {
    let mut board = RowBoard::<OneWord>::try_empty(rt.alloc(), 2, 3, 2, &OWN_LAYERS)?;
    let other = board.try_copy(rt.alloc())?;
    board.put(4, LayerId(1), Some(ObjectId(2)), Motion::Still);
    board.put(5, LayerId(1), Some(ObjectId(2)), Motion::Still);
    board.put(5, LayerId(1), None, Motion::Still);
    assert!(rt; board.is_alike(&other));
    for (row, wanted) in [(0, false), (1, true), (2, false)] {
        let columns = differing_in(&board, &other, row).expect(
            &rt,
            "a row of boards that are alike",
        );
        expect_set(&rt, &columns, &[false, wanted]);
    }
    Ok(())
}

#[test]
fn tells_which_boards_are_alike(rt: HostRuntime) -> Result<(), Fail> {
    let board = RowBoard::<OneWord>::try_empty(rt.alloc(), 2, 3, 2, &OWN_LAYERS)?;
    let turned = RowBoard::<OneWord>::try_empty(rt.alloc(), 3, 2, 2, &OWN_LAYERS)?;
    assert!(rt; !board.is_alike(&turned));
    let fewer = RowBoard::<OneWord>::try_empty(rt.alloc(), 2, 3, 2, &[LayerId(1)])?;
    assert!(rt; !board.is_alike(&fewer));
    Ok(())
}

#[test]
fn tells_which_columns_are_alike(rt: HostRuntime) -> Result<(), Fail> {
    let mut board = RowBoard::<OneWord>::try_empty(rt.alloc(), 5, 2, 2, &OWN_LAYERS)?;
    board.put(3, LayerId(1), Some(ObjectId(2)), Motion::Still);
    board.put(7, LayerId(1), Some(ObjectId(2)), PUSHED);
    board.put(9, LayerId(1), Some(ObjectId(2)), Motion::Still);
    board.put(9, LayerId(0), Some(ObjectId(1)), Motion::Still);
    expect_set(&rt, &board.alike(0, 4), &[true; 5]);
    expect_set(&rt, &board.alike(1, 2), &[true, false, true]);
    expect_set(&rt, &board.alike(1, 3), &[false, true, false, true]);
    expect_set(&rt, &board.alike(1, 4), &[false, false, false, false, true]);
    Ok(())
}
