//! Rows written on boards as a list of slots, on which no game is played, and writes that no rule of a game makes.

use crate::boards::{BARE, Slot, slot_of};
use crate::lists::list_of;
use ps_board::{Board, Columns, ListBoard, OneWord};
use ps_match::Scan;
use ps_model::{
    Direction, LayerId, LayerWrite, LayeredObject, Memory, Motion, ObjectId, ObjectWrite,
};
use ps_program::CellWrite;
use ps_rows::RowBoard;
use std::alloc::Global;
use std::process::Abort;
use std::test::Fail;

const RIGHT: Motion = Motion::Going(Direction::Right);

/// Three objects: two on the higher of two layers, and one on the lower.
const OWN_LAYERS: [LayerId; 3] = [LayerId(1), LayerId(0), LayerId(1)];

const HIGHER: LayerId = LayerId(1);

/// A write of the higher layer, from which one object goes, if one is named.
fn write_of(
    alloc: Global,
    gone: Option<ObjectId>,
    object: ObjectWrite,
    motion: Option<Motion>,
) -> Result<CellWrite, Memory> {
    let lost = match gone {
        Some(object) => Some(LayeredObject {
            object,
            layer: HIGHER,
        }),
        None => None,
    };
    let gone = list_of(alloc, lost)?;
    let layers = list_of(
        alloc,
        Some(LayerWrite {
            layer: HIGHER,
            object,
            motion,
        }),
    )?;
    Ok(CellWrite { gone, layers })
}

/// Writes the first three columns of the lower of two rows, where an object acts, another rests, and none stands; in
/// the fourth column an object rests.
fn write_row(
    rt: &impl Abort,
    alloc: Global,
    write: &CellWrite,
    changes: bool,
    wanted: &[Slot; 8],
) -> Result<(), Fail> {
    let mut list = ListBoard::try_empty(alloc, 4, 2, 2, &OWN_LAYERS)?;
    list.put(1, HIGHER, Some(ObjectId(0)), Motion::Acting);
    list.put(3, HIGHER, Some(ObjectId(2)), Motion::Still);
    list.put(7, HIGHER, Some(ObjectId(0)), Motion::Still);
    assert_eq!(rt; list.rewrite(write, 1, &Columns::below(3)), changes);
    for cell in 0..8u32 {
        let shown = slot_of(&list, cell, HIGHER.0);
        assert_eq!(rt; shown, wanted.get(cell as usize).copied(), "in cell {cell}");
    }
    assert!(rt; !list.rewrite(write, 1, &Columns::none()));
    Ok(())
}

#[test]
fn a_cell_is_written_and_no_other_one(rt: HostRuntime) -> Result<(), Fail> {
    let mut rows = RowBoard::<OneWord>::try_empty(rt.alloc(), 4, 2, 2, &OWN_LAYERS)?;
    let mut list = ListBoard::try_empty(rt.alloc(), 4, 2, 2, &OWN_LAYERS)?;
    let put = ObjectWrite::Put(ObjectId(2));
    let write = write_of(rt.alloc(), None, put, Some(RIGHT))?;
    assert!(&rt; !rows.write(&write, 8, false));
    assert!(&rt; rows.write(&write, 8, true));
    assert!(&rt; rows.write(&write, 5, false));
    assert!(&rt; list.write(&write, 5, false));
    assert!(&rt; !rows.write(&write, 5, false));
    assert!(&rt; rows.write(&write, 5, true));
    for cell in 0..8u32 {
        let shown = slot_of(&rows, cell, HIGHER.0);
        assert!(&rt; shown.is_some());
        assert_eq!(&rt; shown, slot_of(&list, cell, HIGHER.0));
    }
    Ok(())
}

#[test]
fn an_object_is_put_with_a_motion(rt: HostRuntime) -> Result<(), Fail> {
    let last = (Some(ObjectId(0)), Motion::Still);
    let write = write_of(rt.alloc(), None, ObjectWrite::Put(ObjectId(0)), Some(RIGHT))?;
    let wanted = [
        BARE,
        (Some(ObjectId(0)), RIGHT),
        BARE,
        (Some(ObjectId(0)), RIGHT),
        BARE,
        (Some(ObjectId(0)), RIGHT),
        BARE,
        last,
    ];
    write_row(&rt, rt.alloc(), &write, true, &wanted)?;
    Ok(())
}

#[test]
fn an_object_is_put_and_keeps_the_motion_there(rt: HostRuntime) -> Result<(), Fail> {
    let last = (Some(ObjectId(0)), Motion::Still);
    let write = write_of(rt.alloc(), None, ObjectWrite::Put(ObjectId(2)), None)?;
    let wanted = [
        BARE,
        (Some(ObjectId(2)), Motion::Acting),
        BARE,
        (Some(ObjectId(2)), Motion::Still),
        BARE,
        (Some(ObjectId(2)), Motion::Still),
        BARE,
        last,
    ];
    write_row(&rt, rt.alloc(), &write, true, &wanted)?;
    Ok(())
}

#[test]
fn an_object_goes_and_takes_its_motion_along(rt: HostRuntime) -> Result<(), Fail> {
    let last = (Some(ObjectId(0)), Motion::Still);
    let write = write_of(rt.alloc(), Some(ObjectId(0)), ObjectWrite::Leave, None)?;
    let wanted = [
        BARE,
        BARE,
        BARE,
        (Some(ObjectId(2)), Motion::Still),
        BARE,
        BARE,
        BARE,
        last,
    ];
    write_row(&rt, rt.alloc(), &write, true, &wanted)?;
    Ok(())
}

#[test]
fn what_stands_is_moved_and_nothing_else(rt: HostRuntime) -> Result<(), Fail> {
    let last = (Some(ObjectId(0)), Motion::Still);
    let write = write_of(
        rt.alloc(),
        Some(ObjectId(0)),
        ObjectWrite::Leave,
        Some(RIGHT),
    )?;
    let wanted = [
        BARE,
        BARE,
        BARE,
        (Some(ObjectId(2)), RIGHT),
        BARE,
        BARE,
        BARE,
        last,
    ];
    write_row(&rt, rt.alloc(), &write, true, &wanted)?;
    let write = write_of(rt.alloc(), None, ObjectWrite::Leave, Some(RIGHT))?;
    let wanted = [
        BARE,
        (Some(ObjectId(0)), RIGHT),
        BARE,
        (Some(ObjectId(2)), RIGHT),
        BARE,
        BARE,
        BARE,
        last,
    ];
    write_row(&rt, rt.alloc(), &write, true, &wanted)?;
    Ok(())
}

#[test]
fn a_layer_is_cleared(rt: HostRuntime) -> Result<(), Fail> {
    let last = (Some(ObjectId(0)), Motion::Still);
    let write = write_of(rt.alloc(), None, ObjectWrite::Clear, None)?;
    let wanted = [BARE, BARE, BARE, BARE, BARE, BARE, BARE, last];
    write_row(&rt, rt.alloc(), &write, true, &wanted)?;
    Ok(())
}

#[test]
fn nothing_written_changes_nothing(rt: HostRuntime) -> Result<(), Fail> {
    let last = (Some(ObjectId(0)), Motion::Still);
    let write = write_of(rt.alloc(), None, ObjectWrite::Leave, None)?;
    let wanted = [
        BARE,
        (Some(ObjectId(0)), Motion::Acting),
        BARE,
        (Some(ObjectId(2)), Motion::Still),
        BARE,
        BARE,
        BARE,
        last,
    ];
    write_row(&rt, rt.alloc(), &write, false, &wanted)?;
    Ok(())
}

#[test]
fn what_has_no_room_is_not_put(rt: HostRuntime) -> Result<(), Fail> {
    let mut board = RowBoard::<OneWord>::try_empty(rt.alloc(), 4, 2, 2, &OWN_LAYERS)?;
    let put = ObjectWrite::Put(ObjectId(1));
    let write = write_of(rt.alloc(), None, put, None)?;
    assert!(&rt; !board.rewrite(&write, 1, &Columns::all()));
    Ok(())
}
