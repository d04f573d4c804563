//! The puzzle of eight tiles in a square of nine, for tests. Tile 0 is the gap; the tiles are told row by row.

ghost use Rattle.std.specs.Prelude.{◌<◌, ◌≤◌, IfSome};

use crate::tables::INPUTS;
use std::alloc::{AllocError, Global};

/// How many orders nine tiles have.
const ORDERS: u32 = 362880;

/// Where a tile is, among those from a place on.
fn place_of(tiles: &[u8; 9], tile: u8, from: usize) -> usize
    requires { from < 9 }
    ensures from { from ≤ result }
    ensures below { result < 9 }
{
    for place in from..9 {
        if tiles[place] == tile {
            return place;
        }
    }
    from
}

/// The order of tiles that has a number.
fn tiles_of(number: u32) -> [u8; 9] {
    let mut tiles = [0, 1, 2, 3, 4, 5, 6, 7, 8];
    let mut rest = number as usize;
    for place in 0..9usize {
        let left = 9 - place;
        tiles.swap(place, place + rest % left);
        rest /= left;
    }
    tiles
}

/// The number of an order of tiles.
pub fn number_of(tiles: &[u8; 9]) -> u32 {
    let mut other = [0, 1, 2, 3, 4, 5, 6, 7, 8];
    let mut number = 0u32;
    let mut weight = 1u32;
    for place in 0..9usize {
        let from = place_of(&other, tiles[place], place);
        number = number.wrapping_add(weight.wrapping_mul((from - place) as u32));
        weight = weight.wrapping_mul((9 - place) as u32);
        other.swap(place, from);
    }
    number
}

/// The place beside the gap whose tile an input moves there.
fn beside(gap: usize, input: u32) -> Option<usize>
    requires { gap < 9 }
    ensures { IfSome result (λ place. place < 9) }
{
    match input {
        0 if gap >= 3 => Some(gap - 3),
        1 if gap % 3 != 0 => Some(gap - 1),
        2 if gap < 6 => Some(gap + 3),
        3 if gap % 3 != 2 => Some(gap + 1),
        _ => None,
    }
}

/// The order that an input leads to, by numbers, or none where that is the order wanted.
fn edge(number: u32, input: u32, wanted: u32) -> Option<u32> {
    let mut tiles = tiles_of(number);
    let gap = place_of(&tiles, 0, 0);
    if let Some(place) = beside(gap, input) {
        tiles.swap(gap, place);
    }
    let then = number_of(&tiles);
    if then == wanted { None } else { Some(then) }
}

/// What each input leads to in each order.
pub fn edges(alloc: Global, wanted: u32) -> Result<Vec<Option<u32>>, AllocError> {
    let mut edges = Vec::new(alloc);
    for number in 0..ORDERS {
        for input in 0..INPUTS {
            edges.push(edge(number, input, wanted))?;
        }
    }
    Ok(edges)
}
