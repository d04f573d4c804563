//! The ways to take one item of each list, one after the other.

ghost use Rattle.std.specs.Prelude.{◌≡◌, ◌++◌, [], true, false, IfOk, OnOk, Some, None, map, slice_get};
ghost use Rattle.std.specs.Option.{option_to_list};
ghost use Rattle.ps_model.specs.meaning.Readings.{one_of_each};
ghost use Rattle.ps_readings.specs.Wheels.{lists_of, way_shown, at_first, next_wheels, has_empty, are_showing};
ghost use Rattle.ps_readings.specs.Wheels.{ways_left, taken};

use crate::wheels::Wheel;
use ps_model::Memory;
use ps_text::List;
use std::alloc::Global;

/// Whether one of the lists is empty.
fn has_empty<T>(wheels: &[Wheel<T>]) -> bool
    ensures { result ≡ has_empty wheels.now }
{
    for wheel in wheels {
        if wheel.items.as_slice().is_empty() {
            return true;
        }
    }
    false
}

/// Puts the item that a wheel shows last.
#[tactic(auto, using(std::proofs::lemmas::Option::gets, std::proofs::lemmas::Grind::common_steps))]
fn push_item<T: Copy>(way: &mut Vec<T>, wheel: &Wheel<T>) -> Result<(), Memory>
    ensures { OnOk result (way.new.items
        ≡ way.old.items ++ option_to_list (slice_get wheel.now.items wheel.now.place)) }
{
    let items = wheel.items.as_slice();
    if wheel.place >= items.len() {
        return Ok(());
    }
    way.push(items[wheel.place])?;
    Ok(())
}

/// Puts the items that wheels show last.
fn push_shown<T: Copy>(way: &mut Vec<T>, wheels: &[Wheel<T>]) -> Result<(), Memory>
    ensures { OnOk result (way.new.items ≡ way.old.items ++ way_shown wheels.now) }
{
    for wheel in wheels {
        push_item(way, wheel)?;
    }
    Ok(())
}

/// Makes each wheel show its first item.
fn turn_to_first<T>(wheels: &mut Vec<Wheel<T>>)
    ensures { wheels.new.items ≡ map at_first wheels.old.items }
{
    for place in 0..wheels.len() {
        wheels[place].place = 0;
    }
}

/// Makes the wheels show the next way: the last one that has one more item shows that, and those after it their
/// first. If none has, all show their first ones, and the answer is `false`.
fn turn_to_next<T>(wheels: &mut Vec<Wheel<T>>) -> bool
    ensures next { result ≡ true → next_wheels wheels.old.items ≡ Some wheels.new.items }
    ensures none { result ≡ false → next_wheels wheels.old.items ≡ None }
    ensures first { result ≡ false → wheels.new.items ≡ map at_first wheels.old.items }
{
    let mut place = wheels.len();
    while place > 0 {
        place -= 1;
        let count = wheels[place].items.as_slice().len();
        if count > 0 && wheels[place].place < count - 1 {
            wheels[place].place += 1;
            return true;
        }
        wheels[place].place = 0;
    }
    false
}

/// Wheels with these lists, each at its first item.
fn wheels_of<T: Drop>(alloc: Global, lists: Vec<List<T>>) -> Result<Vec<Wheel<T>>, Memory>
    ensures { IfOk result (λ wheels. lists_of wheels.items ≡ lists.items) }
{
    let mut wheels = Vec::new(alloc);
    for items in lists {
        wheels.push(Wheel { items, place: 0 })?;
    }
    Ok(wheels)
}

/// The ways to take one item of each list, in their order: the first list's item changes slowest. One way is held at
/// a time.
#[derive(Drop)]
pub struct Ways<T> {
    wheels: Vec<Wheel<T>>,
    ended: bool,
    ghost showing: { ended ≡ false → are_showing wheels.items ≡ true },
}

impl<T: Copy + Drop> Ways<T> {
    /// The ways to take one item of each of the lists, all of them taken: `rewind` starts with the first.
    pub fn spent(alloc: Global, lists: Vec<List<T>>) -> Result<Ways<T>, Memory>
        ensures lists { IfOk result (λ ways. lists_of ways.wheels.items ≡ lists.items) }
        ensures left { IfOk result (λ ways. ways_left ways.ended ways.wheels.items ≡ []) }
    {
        let wheels = wheels_of(alloc, lists)?;
        Ok(Ways {
            wheels,
            ended: true,
        })
    }

    /// The ways to take one item of each of the lists, none of them taken yet.
    pub fn of(alloc: Global, lists: Vec<List<T>>) -> Result<Ways<T>, Memory>
        ensures lists { IfOk result (λ ways. lists_of ways.wheels.items ≡ lists.items) }
        ensures left { IfOk result (λ ways. ways_left ways.ended ways.wheels.items ≡ one_of_each lists.items) }
    {
        let mut ways = Ways::spent(alloc, lists)?;
        ways.rewind();
        Ok(ways)
    }

    /// Starts again with the first way.
    pub fn rewind(&mut self)
        ensures lists { lists_of self.new.wheels.items ≡ lists_of self.old.wheels.items }
        ensures left { ways_left self.new.ended self.new.wheels.items ≡ one_of_each (lists_of self.old.wheels.items) }
    {
        turn_to_first(&mut self.wheels);
        self.ended = has_empty(&self.wheels);
    }

    /// Makes a list the next way, if there is one; else the answer is `false`.
    pub fn next(&mut self, way: &mut Vec<T>) -> Result<bool, Memory>
        ensures lists { lists_of self.new.wheels.items ≡ lists_of self.old.wheels.items }
        ensures left { IfOk result (λ more. ways_left self.old.ended self.old.wheels.items
            ≡ taken more way.new.items (ways_left self.new.ended self.new.wheels.items)) }
    {
        way.clear();
        if self.ended {
            return Ok(false);
        }
        push_shown(way, &self.wheels)?;
        let more = turn_to_next(&mut self.wheels);
        self.ended = !more;
        Ok(true)
    }
}
