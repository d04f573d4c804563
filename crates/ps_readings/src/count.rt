//! How many readings a rule has: they are counted without being made.

ghost use Rattle.std.specs.Prelude.{◌≡◌, ◌*◌, length, IfOk};
ghost use Rattle.ps_model.specs.meaning.Occurrences.{left_items};
ghost use Rattle.ps_model.specs.meaning.Readings.{directions_of, reading_count};
ghost use Rattle.ps_rules.specs.RulesShown.{item_shown, items_shown};
ghost use Rattle.ps_readings.specs.Counted.{counted};
ghost use Rattle.ps_readings.specs.ItemWays.{move_ways, member_ways, item_ways};

use crate::counted::{counted, times};
use crate::directions::directions_of;
use crate::members::members;
use crate::turning::turned;
use ps_model::{Direction, Memory};
use ps_names::Names;
use ps_rules::{Item, Occurrences, is_several};
use std::alloc::Global;

/// How many moves the item leaves the choice of: as many in each direction; one, where it leaves none.
fn move_ways(alloc: Global, item: &Item) -> Result<u32, Memory>
    ensures { IfOk result (λ ways. ways ≡ counted (move_ways (item_shown item.now))) }
{
    let Item::Is {
        at: _,
        word: Some(word),
        meaning: _,
    } = item
    else {
        return Ok(1);
    };
    if !is_several(*word) {
        return Ok(1);
    }
    let moves = turned(alloc, Direction::Up, *word)?;
    Ok(counted(moves.len() as u64))
}

/// How many members the item is split into: those of a fixed property.
fn member_ways(names: &Names, occurrences: &Occurrences<'_>, item: &Item) -> u32
    ensures { result ≡ counted (member_ways names.now occurrences.now (item_shown item.now)) }
{
    let Item::Is {
        at: _,
        word: _,
        meaning,
    } = item
    else {
        return 1;
    };
    if !occurrences.is_fixed(names, meaning) {
        return 1;
    }
    counted(members(meaning).len() as u64)
}

/// In how many ways the item can be read.
fn ways_of_item(
    alloc: Global,
    names: &Names,
    occurrences: &Occurrences<'_>,
    item: &Item,
) -> Result<u32, Memory>
    ensures { IfOk result (λ ways. ways
        ≡ counted (move_ways (item_shown item.now) * member_ways names.now occurrences.now (item_shown item.now))) }
{
    let moves = move_ways(alloc, item)?;
    Ok(times(moves, member_ways(names, occurrences, item)))
}

/// In how many ways the items can be read.
fn ways_of_items(
    alloc: Global,
    names: &Names,
    occurrences: &Occurrences<'_>,
    items: &[Item],
) -> Result<u32, Memory>
    ensures { IfOk result (λ ways. ways ≡ counted (item_ways names.now occurrences.now (items_shown items.now))) }
{
    let mut ways = 1;
    for item in items {
        let more = ways_of_item(alloc, names, occurrences, item)?;
        ways = times(ways, more);
    }
    Ok(ways)
}

/// In how many ways the left of the rule's cells can be read in one direction.
fn left_ways(alloc: Global, names: &Names, occurrences: &Occurrences<'_>) -> Result<u32, Memory>
    ensures { IfOk result (λ ways. ways ≡ counted (item_ways names.now occurrences.now (left_items occurrences.now))) }
{
    let mut ways = 1;
    for cell in occurrences.cells() {
        let more = ways_of_items(alloc, names, occurrences, cell.left.as_slice())?;
        ways = times(ways, more);
    }
    Ok(ways)
}

/// In how many directions the rule is used.
fn direction_count(alloc: Global, occurrences: &Occurrences<'_>) -> Result<u32, Memory>
    ensures { IfOk result (λ count. count ≡ counted (length (directions_of occurrences.now))) }
{
    let directions = directions_of(alloc, occurrences)?;
    Ok(counted(directions.len() as u64))
}

/// How many readings a rule has, impossible ones among them; one more than the most readings of a rule, where it has
/// more than that. It takes as long as the rule has items, however many readings there are. `Memory` if there is no
/// room for the directions of the rule or the moves of a word.
pub fn reading_count(
    alloc: Global,
    names: &Names,
    occurrences: &Occurrences<'_>,
) -> Result<u32, Memory>
    ensures { IfOk result (λ count. count ≡ counted (reading_count names.now occurrences.now)) }
{
    let directions = direction_count(alloc, occurrences)?;
    let ways = left_ways(alloc, names, occurrences)?;
    Ok(times(directions, ways))
}
