//! Rules of one row of two parts of which one cell alone is written: each tells its cell. A game is played alike where
//! it isn't told. E is an emitter, M a mirror that gets a beam, and a dot any cell.

ghost use Rattle.std.specs.Prelude.{◌≡◌, All, IfOk, IfSome};
ghost use Rattle.ps_program.specs.Axes.{LiesAlong};
ghost use Rattle.ps_laws.specs.WholeRows.{HasCells};

use crate::lists::list_of;
use ps_model::{LayerId, LayerWrite, LayeredObject, Memory, ObjectId, ObjectWrite};
use ps_program::{
    Axis, CellMask, CellWrite, Commands, CompiledCell, CompiledRow, CompiledRule, PART_LIMIT,
    Writer,
};
use ps_text::List;
use std::alloc::Global;
use std::process::Abort;
use std::rc::Rc;
use std::test::Fail;

const LOWEST: LayerId = LayerId(0);

const HIGHEST: LayerId = LayerId(1);

const EMITTER: LayeredObject = LayeredObject {
    object: ObjectId(1),
    layer: LOWEST,
};

const MIRROR: LayeredObject = LayeredObject {
    object: ObjectId(2),
    layer: LOWEST,
};

const BEAM: LayeredObject = LayeredObject {
    object: ObjectId(3),
    layer: HIGHEST,
};

const BEAM_PUT: LayerWrite = LayerWrite {
    layer: HIGHEST,
    object: ObjectWrite::Put(ObjectId(3)),
    motion: None,
};

/// No commands.
fn nothing() -> Commands {
    Commands {
        cancel: false,
        restart: false,
        again: false,
        checkpoint: false,
        win: false,
        message: None,
    }
}

/// What a cell asks that needs one object and bars another, or neither.
fn mask_of(
    alloc: Global,
    needed: Option<LayeredObject>,
    barred: Option<LayeredObject>,
) -> Result<CellMask, Memory> {
    let needed = list_of(alloc, needed)?;
    let barred = list_of(alloc, barred)?;
    Ok(CellMask {
        needed,
        barred,
        one_of: List::from_vec(Vec::new(alloc)),
        motions: List::from_vec(Vec::new(alloc)),
    })
}

/// A cell of a rule: the object that must stand on the lowest layer, if there is one; and whether a beam is put above
/// it, where there is none yet.
fn cell(alloc: Global, ground: Option<LayeredObject>, beams: bool) -> Result<CompiledCell, Memory> {
    let (barred, put) = if beams {
        (Some(BEAM), Some(BEAM_PUT))
    } else {
        (None, None)
    };
    let mask = mask_of(alloc, ground, barred)?;
    let layers = list_of(alloc, put)?;
    let gone = List::from_vec(Vec::new(alloc));
    Ok(CompiledCell::new(mask, CellWrite { gone, layers }))
}

/// A part by its letters.
fn part(alloc: Global, letters: &[u8]) -> Result<List<CompiledCell>, Memory> {
    let mut all = Vec::new(alloc);
    for letter in letters {
        let (ground, beams) = match *letter {
            b'E' => (Some(EMITTER), false),
            b'M' => (Some(MIRROR), true),
            _ => (None, false),
        };
        all.push(cell(alloc, ground, beams)?)?;
    }
    Ok(List::from_vec(all))
}

/// The parts of a row by their letters. Parts without a cell are left out.
fn parts_of(alloc: Global, parts: &[&[u8]]) -> Result<List<List<CompiledCell>>, Memory>
    ensures { IfOk result (All HasCells) }
{
    let mut all = Vec::new(alloc);
    for letters in parts {
        let part = part(alloc, *letters)?;
        if part.as_slice().len() != 0 {
            all.push(part)?;
        }
    }
    Ok(List::from_vec(all))
}

/// A row of these parts; nothing, where they are too few or too many.
fn row(alloc: Global, axis: Axis, parts: &[&[u8]]) -> Result<Option<CompiledRow>, Memory>
    ensures { IfOk result (λ row. IfSome row (LiesAlong axis)) }
{
    let parts = parts_of(alloc, parts)?;
    let count = parts.as_slice().len();
    if count == 0 || (PART_LIMIT as usize) < count {
        return Ok(None);
    }
    Ok(Some(CompiledRow { axis, parts }))
}

/// A rule of one row of these parts.
fn rule(alloc: Global, axis: Axis, parts: &[&[u8]]) -> Result<CompiledRule, Memory> {
    let mut all = Vec::new(alloc);
    if let Some(row) = row(alloc, axis, parts)? {
        all.push(row)?;
    }
    let commands = Rc::new(alloc, nothing())?;
    CompiledRule::try_new(alloc, axis, List::from_vec(all), true, commands)
}

/// A rule of one row of these parts along an axis tells the cell that writes alone.
fn check_along(
    rt: &impl Abort,
    alloc: Global,
    axis: Axis,
    parts: &[&[u8]],
    writer: Writer,
) -> Result<(), Memory> {
    let written = rule(alloc, axis, parts)?;
    assert_eq!(rt; written.writer, Some(writer));
    Ok(())
}

/// So does one that goes right, and one that goes down.
fn check(rt: &impl Abort, alloc: Global, parts: &[&[u8]], writer: Writer) -> Result<(), Memory> {
    check_along(rt, alloc, Axis::Right, parts, writer)?;
    check_along(rt, alloc, Axis::Down, parts, writer)
}

#[test]
fn a_rule_tells_the_cell_that_writes_alone(rt: HostRuntime) -> Result<(), Fail> {
    let alloc = rt.alloc();
    let first = Writer {
        leads: true,
        cell: 0,
    };
    let second = Writer {
        leads: false,
        cell: 0,
    };
    let middle = Writer {
        leads: false,
        cell: 1,
    };
    let parts: [&[u8]; 2] = [b"E", b"M"];
    check(&rt, alloc, &parts, second)?;
    let parts: [&[u8]; 2] = [b"M", b"E"];
    check(&rt, alloc, &parts, first)?;
    let parts: [&[u8]; 2] = [b"E.", b"M"];
    check(&rt, alloc, &parts, second)?;
    let parts: [&[u8]; 2] = [b"M.", b"E"];
    check(&rt, alloc, &parts, first)?;
    let parts: [&[u8]; 2] = [b"E", b".M."];
    check(&rt, alloc, &parts, middle)?;
    Ok(())
}
