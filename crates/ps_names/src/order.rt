//! In which order the lines of the legend are looked at: each after those that it mentions.
//!
//! It is Tarjan's search for the parts of a graph that are strongly connected. Nothing is promised of it but that the
//! levels fall, which is tested; were they other levels, lines would be looked at one by one, which takes longer.

ghost use Rattle.std.specs.Prelude.{◌≡◌, IfOk};
ghost use Rattle.ps_names.specs.LegendNames.{legend_shown};
ghost use Rattle.ps_names.specs.Levels.{level, Fall};

use crate::legend_names::LegendName;
use crate::levels::{fall, level_at};
use crate::mention::Mention;
use ps_model::Memory;
use std::alloc::Global;

/// An order of the legend lines.
#[derive(Drop)]
pub struct Order {
    /// The places of the lines, each after those that it mentions, as far as it doesn't stand for itself.
    pub places: Vec<u32>,
    /// The level of each line, by its place, from 1. No line mentions one of a higher level. Those of one level stand
    /// for themselves through one another.
    pub levels: Vec<u32>,
}

/// A line in which the search stands.
#[derive(Clone, Copy)]
struct Visit {
    place: u32,
    /// How many of its mentions were looked at.
    looked: usize,
    /// The lowest number of a line without a level that is known to be reached from it.
    lowest: u32,
}

/// A search through all that the lines mention.
struct Search {
    /// The places that were looked at as starts.
    started: u32,
    /// The number of each line that was met, by its place, in the order of meeting, from 1; 0 for the others.
    numbers: Vec<u32>,
    met: u32,
    /// The level of each line that has one, by its place, from 1; 0 for the others.
    levels: Vec<u32>,
    level: u32,
    /// The lines through which the search came where it is.
    path: Vec<Visit>,
    /// The lines that were met and have no level, in the order of meeting.
    open: Vec<u32>,
    /// The lines all of whose mentions were looked at.
    places: Vec<u32>,
}

/// Written out: an owner of a search calls this on each return path, and doesn't drop its parts there.
impl Drop for Search {
    fn drop(self) {
        let Search {
            started: _,
            numbers: _numbers,
            met: _,
            levels: _levels,
            level: _,
            path: _path,
            open: _open,
            places: _places,
        } = self;
    }
}

/// Sets the number of a place.
fn set_number(numbers: &mut [u32], place: u32, number: u32) {
    let at = place as usize;
    if at >= numbers.len() {
        return;
    }
    numbers[at] = number;
}

/// A mention of the legend line of a place, by its number there, if the line has it.
fn mention_at(legend: &[LegendName<'_>], place: u32, number: usize) -> Option<Mention> {
    let name = legend.get(place as usize)?;
    let mention = name.mentions.get(number)?;
    Some(*mention)
}

impl Search {
    /// Nothing was met of a legend of `lines` lines.
    fn start(alloc: Global, lines: usize) -> Result<Search, Memory> {
        Ok(Search {
            started: 0,
            numbers: Vec::from_elem(alloc, 0, lines)?,
            met: 0,
            levels: Vec::from_elem(alloc, 0, lines)?,
            level: 0,
            path: Vec::new(alloc),
            open: Vec::new(alloc),
            places: Vec::new(alloc),
        })
    }

    /// Goes into a line, if it isn't met yet.
    fn enter(&mut self, place: u32) -> Result<(), Memory> {
        let at = place as usize;
        if at >= self.numbers.len() || level_at(&self.numbers, at) > 0 {
            return Ok(());
        }
        self.met = self.met.saturating_add(1);
        let lowest = self.met;
        set_number(&mut self.numbers, place, lowest);
        self.open.push(place)?;
        self.path.push(Visit {
            place,
            looked: 0,
            lowest,
        })?;
        Ok(())
    }

    /// The lower of a number and that of a line, if this was met and has no level.
    fn lower(&self, lowest: u32, place: u32) -> u32 {
        let at = place as usize;
        let number = level_at(&self.numbers, at);
        if number == 0 || number >= lowest || level_at(&self.levels, at) > 0 {
            return lowest;
        }
        number
    }

    /// Looks at the next mention of the line of a visit.
    fn look(&mut self, visit: Visit, mention: Mention) -> Result<(), Memory> {
        let looked = visit.looked.saturating_add(1);
        let Mention::Line(place) = mention else {
            self.path.push(Visit { looked, ..visit })?;
            return Ok(());
        };
        let lowest = self.lower(visit.lowest, place);
        self.path.push(Visit {
            looked,
            lowest,
            ..visit
        })?;
        self.enter(place)
    }

    /// Gives a level to the lines that were met from that of a place on.
    fn close(&mut self, place: u32) {
        self.level = self.level.saturating_add(1);
        while let Some(line) = self.open.pop() {
            set_number(&mut self.levels, line, self.level);
            if line == place {
                return;
            }
        }
    }

    /// Goes back out of a line.
    fn leave(&mut self, visit: Visit) -> Result<(), Memory> {
        self.places.push(visit.place)?;
        if level_at(&self.numbers, visit.place as usize) == visit.lowest {
            self.close(visit.place);
        }
        let Some(before) = self.path.pop() else {
            return Ok(());
        };
        let lowest = before.lowest.min(visit.lowest);
        self.path.push(Visit { lowest, ..before })?;
        Ok(())
    }

    /// Looks at a mention, or goes back out of a line, or looks for a start.
    fn step(&mut self, legend: &[LegendName<'_>]) -> Result<(), Memory> {
        let Some(visit) = self.path.pop() else {
            let place = self.started;
            self.started = place.saturating_add(1);
            return self.enter(place);
        };
        let Some(mention) = mention_at(legend, visit.place, visit.looked) else {
            return self.leave(visit);
        };
        self.look(visit, mention)
    }

    /// The order that was found.
    fn into_order(self, alloc: Global, legend: &[LegendName<'_>]) -> Order
        ensures { Fall (legend_shown legend.now) result.levels.items }
    {
        let Search {
            started: _,
            numbers: _numbers,
            met: _,
            levels,
            level: _,
            path: _path,
            open: _open,
            places,
        } = self;
        let levels = fallen(alloc, legend, levels);
        Order { places, levels }
    }
}

/// Searches the whole legend: a step for each mention, and two for each line.
fn searched(alloc: Global, legend: &[LegendName<'_>]) -> Result<Search, Memory> {
    let mut search = Search::start(alloc, legend.len())?;
    for name in legend {
        search.step(legend)?;
        search.step(legend)?;
        for _mention in 0..name.mentions.len() {
            search.step(legend)?;
        }
    }
    Ok(search)
}

/// The levels if they fall, or else the same level for all lines.
fn fallen(alloc: Global, legend: &[LegendName<'_>], levels: Vec<u32>) -> Vec<u32>
    ensures { Fall (legend_shown legend.now) result.items }
{
    if fall(legend, &levels) {
        return levels;
    }
    Vec::new(alloc)
}

/// An order of the legend lines.
pub fn order_of(alloc: Global, legend: &[LegendName<'_>]) -> Result<Order, Memory>
    ensures { IfOk result (λ order. Fall (legend_shown legend.now) order.levels.items) }
{
    let search = searched(alloc, legend)?;
    Ok(search.into_order(alloc, legend))
}
