//! Rules of one row of two parts of which one cell alone changes anything: what it writes keeps the masks of all
//! others.

ghost use Rattle.std.specs.Prelude.{◌≡◌, ◌<◌, IfSome, length, true};
ghost use Rattle.std.specs.List.{list_all};
ghost use Rattle.ps_program.specs.CellsShown.{write_shown};
ghost use Rattle.ps_program.specs.Writers.{SettlesAtOnce, layer_lasts, object_lasts, part_writer, rows_writer};
ghost use Rattle.ps_program.specs.Writers.{settles, stands_aside, writes_alone};

use crate::cells::{CellWrite, CompiledCell};
use crate::keeping::{is_gone, write_keeps};
use crate::rows::CompiledRow;
use ps_model::{LayerId, LayerWrite, LayeredObject, ObjectWrite, SIDE_LIMIT};

/// The cell that alone changes anything, of a row of two parts.
#[derive(Clone, Copy, PartialEq, Debug)]
pub struct Writer {
    /// It is a cell of the first part; else of the second.
    pub leads: bool,
    /// Its number in its part, less than the rows or columns that a board may have.
    pub cell: u32,
}

/// Whether what becomes of a layer's object isn't an object that goes from there.
fn object_lasts(gone: &[LayeredObject], layer: LayerId, object: ObjectWrite) -> bool
    ensures { result ≡ object_lasts gone.now layer object }
{
    match object {
        ObjectWrite::Put(object) => !is_gone(gone, layer, object),
        ObjectWrite::Leave => true,
        ObjectWrite::Clear => true,
    }
}

/// Whether all of these writes put no object that goes from its layer.
fn all_last(gone: &[LayeredObject], writes: &[LayerWrite]) -> bool
    ensures { result ≡ list_all (layer_lasts gone.now) writes.now }
{
    writes
        .iter()
        .all(|write| object_lasts(gone, write.layer, write.object))
}

/// Whether the write settles: it puts nothing that goes, so that after it the same write changes nothing
/// ([`settling_cells`]).
fn settles(write: &CellWrite) -> bool
    ensures { result ≡ settles (write_shown write.now) }
{
    all_last(write.gone.as_slice(), write.layers.as_slice())
}

/// Whether a cell changes nothing, and a write keeps its mask.
fn stands_aside(write: &CellWrite, cell: &CompiledCell) -> bool
    ensures { result ≡ stands_aside (write_shown write.now) cell.now }
{
    !cell.changes && write_keeps(write, &cell.mask)
}

/// Whether these cells change nothing, and a write keeps their masks.
fn all_stand_aside(write: &CellWrite, cells: &[CompiledCell]) -> bool
    ensures { result ≡ list_all (stands_aside (write_shown write.now)) cells.now }
{
    cells.iter().all(|cell| stands_aside(write, cell))
}

/// Whether the cell of a part with a number alone changes anything, and keeps the masks of the others. They are in this
/// part and in the other one.
fn writes_alone(part: &[CompiledCell], number: usize, other: &[CompiledCell]) -> bool
    requires { number < length part.now }
    ensures { result ≡ writes_alone part.now number other.now }
{
    let write = &part[number].write;
    settles(write)
        && all_stand_aside(write, &part[..number])
        && all_stand_aside(write, &part[number + 1..])
        && all_stand_aside(write, other)
}

/// The number of the first cell of a part that changes anything.
fn first_changing(part: &[CompiledCell]) -> Option<usize>
    ensures { IfSome result (λ number. number < length part.now) }
{
    for number in 0..part.len() {
        if part[number].changes {
            return Some(number);
        }
    }
    None
}

/// The number of the cell of a part that alone changes anything, if there is one and it keeps the others' masks.
fn writer_in(part: &[CompiledCell], other: &[CompiledCell]) -> Option<u32>
    ensures { IfSome result (λ cell. part_writer part.now cell other.now ≡ true) }
{
    let number = first_changing(part)?;
    if number < SIDE_LIMIT as usize && writes_alone(part, number, other) {
        Some(number as u32)
    } else {
        None
    }
}

/// The writer of rows that are one row of two parts. Nothing, where there are more or less of either, where more cells
/// change anything, or where none does. Nothing, too, where after the write a cell that fitted another one's mask may
/// no longer fit it.
pub fn writer_of(rows: &[CompiledRow]) -> Option<Writer>
    ensures { rows_writer rows.now result ≡ true }
{
    if rows.len() != 1 {
        return None;
    }
    let parts = rows[0].parts.as_slice();
    if parts.len() != 2 {
        return None;
    }
    let first = parts[0].as_slice();
    let second = parts[1].as_slice();
    if let Some(cell) = writer_in(first, second) {
        return Some(Writer { leads: true, cell });
    }
    let cell = writer_in(second, first)?;
    Some(Writer { leads: false, cell })
}

/// What it means of a write that it settles: after it, the same write changes nothing. A law: it has no body, and its
/// contract is proved.
pub fn settling_cells()
    ensures { SettlesAtOnce }
{}
