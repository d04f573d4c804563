//! Boards of rows: on which rows an object stands, and something moves. A board may tell more rows than that. This one
//! does so where an object is asked for on a layer that isn't its own, as no rule does. It tells those that have it.

use crate::boards::expect_set;
use ps_board::{Board, OneWord};
use ps_match::Scan;
use ps_model::{LayerId, LayeredObject, Motion, MotionTest, ObjectId};
use ps_rows::RowBoard;
use std::test::Fail;

/// Three objects: two on the higher of two layers, and one on the lower.
const OWN_LAYERS: [LayerId; 3] = [LayerId(1), LayerId(0), LayerId(1)];

const SOUGHT: LayeredObject = LayeredObject {
    object: ObjectId(2),
    layer: LayerId(1),
};

/// The same object, on a layer that isn't its own.
const ELSEWHERE: LayeredObject = LayeredObject {
    object: ObjectId(2),
    layer: LayerId(0),
};

/// An object with a number that the game has none of.
const UNKNOWN: LayeredObject = LayeredObject {
    object: ObjectId(3),
    layer: LayerId(0),
};

#[test]
fn tells_whether_an_object_is_lacking(rt: HostRuntime) -> Result<(), Fail> {
    let mut board = RowBoard::<OneWord>::try_empty(rt.alloc(), 2, 3, 2, &OWN_LAYERS)?;
    assert!(rt; board.lacks(&SOUGHT));
    board.put(2, LayerId(1), Some(ObjectId(2)), Motion::Still);
    board.put(4, LayerId(1), Some(ObjectId(2)), Motion::Acting);
    assert!(rt; !board.lacks(&SOUGHT));
    Ok(())
}

#[test]
fn tells_the_rows_that_have_an_object(rt: HostRuntime) -> Result<(), Fail> {
    let mut board = RowBoard::<OneWord>::try_empty(rt.alloc(), 2, 3, 2, &OWN_LAYERS)?;
    board.put(2, LayerId(1), Some(ObjectId(2)), Motion::Still);
    board.put(4, LayerId(1), Some(ObjectId(2)), Motion::Acting);
    let copy = board.try_copy(rt.alloc())?;
    board.put(2, LayerId(1), Some(ObjectId(0)), Motion::Still);
    board.clear_moves();
    expect_set(&rt, &board.rows_with(&SOUGHT), &[false, true]);
    expect_set(&rt, &copy.rows_with(&SOUGHT), &[false, true, true]);
    expect_set(&rt, &copy.rows_with(&ELSEWHERE), &[false, true, true]);
    expect_set(&rt, &copy.rows_with(&UNKNOWN), &[]);
    copy.copy_into(&mut board);
    expect_set(&rt, &board.rows_with(&SOUGHT), &[false, true, true]);
    board.put(2, LayerId(1), None, Motion::Still);
    board.put(4, LayerId(1), None, Motion::Still);
    assert!(rt; board.lacks(&SOUGHT));
    Ok(())
}

const ACTS: MotionTest = MotionTest {
    layer: LayerId(1),
    motion: Motion::Acting,
};

#[test]
fn tells_the_rows_where_something_moves(rt: HostRuntime) -> Result<(), Fail> {
    let mut board = RowBoard::<OneWord>::try_empty(rt.alloc(), 2, 3, 2, &OWN_LAYERS)?;
    let mut other = board.try_copy(rt.alloc())?;
    board.put(2, LayerId(1), Some(ObjectId(2)), Motion::Still);
    board.put(4, LayerId(1), Some(ObjectId(2)), Motion::Acting);
    board.copy_into(&mut other);
    expect_set(&rt, &other.rows_moving(&ACTS), &[false, true]);
    expect_set(&rt, &other.rows_moving_any(), &[false, true]);
    expect_set(&rt, &other.rows_holding(ObjectId(2)), &[false, true, true]);
    expect_set(&rt, &other.rows_holding(ObjectId(9)), &[]);
    Ok(())
}

#[test]
fn tells_no_row_where_all_rests(rt: HostRuntime) -> Result<(), Fail> {
    let mut board = RowBoard::<OneWord>::try_empty(rt.alloc(), 2, 3, 2, &OWN_LAYERS)?;
    board.put(4, LayerId(1), Some(ObjectId(2)), Motion::Acting);
    let mut other = board.try_copy(rt.alloc())?;
    board.clear_moves();
    expect_set(&rt, &board.rows_moving(&ACTS), &[]);
    board.copy_into(&mut other);
    expect_set(&rt, &other.rows_moving_any(), &[]);
    assert!(rt; other.same(&board));
    Ok(())
}
