//! Searches of graphs that are known. Each place of the small ones has four inputs: a row of its table.

use crate::answers::{Found, Why};
use crate::puzzles::{edges, number_of};
use crate::searching::search;
use crate::tables::Table;
use crate::watchers::{Unwatched, Watcher};
use std::alloc::Global;

/// Stops a search at a depth.
#[derive(Drop)]
struct StopsAt(u32);

impl Watcher for StopsAt {
    fn goes_on(&mut self, depth: u32, _states: u32) -> bool {
        depth < self.0
    }
}

/// What was found, in a word, with how many inputs or states, and the depth where it isn't known.
fn shown(found: &Found<u32, u32>) -> (&'static str, usize, u32) {
    match found {
        Found::Won { inputs } => ("won", inputs.len(), 0),
        Found::Never { states } => ("never", *states as usize, 0),
        Found::Unknown { states, depth, why } => {
            let word = match why {
                Why::Limit => "limit",
                Why::Memory => "memory",
                Why::Stopped => "stopped",
                Why::Moves(_) => "moves",
            };
            (word, *states as usize, *depth)
        }
    }
}

/// Searches a table from its first place.
fn searched<W: Watcher>(
    alloc: Global,
    rows: &[Option<u32>],
    fails_at: Option<u32>,
    limit: u32,
    watcher: &mut W,
) -> Found<u32, u32> {
    let Ok(edges) = Vec::from_slice(alloc, rows) else {
        return Found::Never { states: 0 };
    };
    let mut table = Table {
        edges,
        start: 0,
        fails_at,
        here: 0,
    };
    search(alloc, &mut table, &[0, 1, 2, 3], limit, watcher)
}

/// A way of four inputs by 0, 1 and 3, and one of two by 2.
const TWO_WAYS: [Option<u32>; 20] = [
    Some(1),
    Some(0),
    Some(2),
    Some(0),
    Some(3),
    Some(0),
    Some(1),
    Some(1),
    Some(0),
    Some(2),
    Some(2),
    None,
    Some(4),
    Some(3),
    Some(3),
    Some(3),
    None,
    Some(4),
    Some(4),
    Some(4),
];

/// Two places that lead to one another.
const ROUND: [Option<u32>; 8] = [
    Some(1),
    Some(0),
    Some(0),
    Some(0),
    Some(0),
    Some(1),
    Some(1),
    Some(1),
];

#[test]
fn the_shortest_list_is_told_in_its_order(rt: HostRuntime) {
    let found = searched(rt.alloc(), &TWO_WAYS, None, 100, &mut Unwatched);
    match found {
        Found::Won { inputs } => assert!(rt; inputs.as_slice() == [2, 3].as_slice()),
        _ => assert!(rt; false),
    }
}

#[test]
fn what_is_known_is_told_where_a_search_stops(rt: HostRuntime) {
    let alloc = rt.alloc();
    let never = searched(alloc, &ROUND, None, 2, &mut Unwatched);
    assert_eq!(rt; shown(&never), ("never", 2, 0));
    let limit = searched(alloc, &ROUND, None, 1, &mut Unwatched);
    assert_eq!(rt; shown(&limit), ("limit", 1, 0));
    let none = searched(alloc, &ROUND, None, 0, &mut Unwatched);
    assert_eq!(rt; shown(&none), ("limit", 0, 0));
    let moves = searched(alloc, &ROUND, Some(1), 9, &mut Unwatched);
    assert_eq!(rt; shown(&moves), ("moves", 2, 1));
    let stopped = searched(alloc, &TWO_WAYS, None, 9, &mut StopsAt(1));
    assert_eq!(rt; shown(&stopped), ("stopped", 3, 1));
}

#[test]
fn eight_tiles(rt: HostRuntime) {
    let alloc = rt.alloc();
    let wanted = number_of(&[1, 2, 3, 4, 5, 6, 7, 8, 0]);
    let Ok(edges) = edges(alloc, wanted) else {
        return;
    };
    let mut table = Table {
        edges,
        start: number_of(&[8, 6, 7, 2, 5, 4, 3, 0, 1]),
        fails_at: None,
        here: 0,
    };
    let inputs = [0, 1, 2, 3];
    let hardest = search(alloc, &mut table, &inputs, 1000000, &mut Unwatched);
    assert_eq!(rt; shown(&hardest), ("won", 31, 0));
    table.start = number_of(&[1, 2, 3, 4, 5, 6, 8, 7, 0]);
    let never = search(alloc, &mut table, &inputs, 181440, &mut Unwatched);
    assert_eq!(rt; shown(&never), ("never", 181440, 0));
    let limit = search(alloc, &mut table, &inputs, 181439, &mut Unwatched);
    assert_eq!(rt; shown(&limit), ("limit", 181439, 30));
}
