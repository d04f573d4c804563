//! Lines that speak of several cells alike.

use ps_model::Memory;
use std::alloc::Global;

/// How many cells are written out.
const CELLS_WRITTEN: usize = 4;

/// What a line says of some cells alike.
#[derive(Drop)]
pub struct Alike {
    pub text: String,
    pub cells: Vec<u32>,
}

/// Adds what a line says of a cell: to a line that says the same of others, or else as a line of its own.
pub fn add_alike(
    alloc: Global,
    groups: &mut Vec<Alike>,
    text: String,
    cell: u32,
) -> Result<(), Memory> {
    for group in groups.iter_mut() {
        if group.text.as_str() == text.as_str() {
            group.cells.push(cell)?;
            return Ok(());
        }
    }
    let mut cells = Vec::new(alloc);
    cells.push(cell)?;
    groups.push(Alike { text, cells })?;
    Ok(())
}

/// A cell of a board whose columns have `height` rows: its column and its row, from 1.
pub fn spot(alloc: Global, height: u32, cell: u32) -> Result<String, Memory> {
    let height = u64::from(height).max(1);
    let column = u64::from(cell) / height + 1;
    let row = u64::from(cell) % height + 1;
    Ok(format!(in alloc; "{column},{row}")?)
}

/// The cells of a group: four of them, and how many more there are.
pub fn spots(alloc: Global, height: u32, cells: &[u32]) -> Result<String, Memory> {
    let mut text = String::new(alloc);
    for number in 0..cells.len() {
        if number == CELLS_WRITTEN {
            let more = cells.len() - CELLS_WRITTEN;
            text.push_str(&format!(in alloc; " and {more} more")?)?;
            return Ok(text);
        }
        if number > 0 {
            text.push_str(" ")?;
        }
        text.push_str(&spot(alloc, height, cells[number])?)?;
    }
    Ok(text)
}
