//! The objects of each layer.

ghost use Rattle.std.specs.Prelude.{◌≡◌, ◌++◌, ◌+◌, ◌<◌, ◌≤◌, ◌∷◌, [], IfOk, IfSome, OnOk};
ghost use Rattle.std.specs.Prelude.{Some, cond, length, map, slice_get, true};
ghost use Rattle.std.specs.Prelude.{slice_range, vec_len};
ghost use Rattle.ps_model.specs.board.Movement.{is_number};
ghost use Rattle.ps_rows.specs.Members.{AreRangesOf, on_layer, short_range};
ghost use Rattle.ps_rows.specs.declared.members.TheConstants.{TABLE_LIMIT};

use ps_model::{LayerId, Memory};
use std::alloc::Global;

/// The most objects that a table can have: their planes are numbered by 32 bits.
pub const TABLE_LIMIT: usize = 2147483648;

/// How many objects a layer has at least that aren't gone through one by one.
pub const SEVERAL_MEMBERS: usize = 64;

/// Where the objects of a layer stand in the list of those of all layers.
#[derive(Clone, Copy)]
pub struct MemberRange {
    pub start: usize,
    pub end: usize,
}

/// The layer of each object of a game, and for each layer the list of its objects, made once.
#[derive(Drop)]
pub struct Members {
    pub table: Vec<u32>,
    pub numbers: Vec<u32>,
    pub ranges: Vec<MemberRange>,
    /// The same, but for an empty one in place of each range of several objects.
    short: Vec<MemberRange>,
    ghost few: { vec_len table ≤ TABLE_LIMIT },
    ghost each: { AreRangesOf table.items numbers.items ranges.items },
    ghost shorter: { short.items ≡ map short_range ranges.items },
}

/// Adds an object, if it is wanted.
fn push_if(numbers: &mut Vec<u32>, wanted: bool, object: u32) -> Result<(), Memory>
    ensures { OnOk result (numbers.new.items ≡ numbers.old.items ++ cond wanted (object ∷ []) []) }
{
    if wanted {
        numbers.push(object)?;
    }
    Ok(())
}

/// Adds the objects of a layer.
fn push_members(numbers: &mut Vec<u32>, table: &[u32], layer: u32) -> Result<(), Memory>
    requires { length table.now ≤ TABLE_LIMIT }
    ensures { OnOk result (numbers.new.items ≡ numbers.old.items ++ on_layer table.now layer) }
{
    for object in 0..table.len() {
        push_if(numbers, table[object] == layer, object as u32)?;
    }
    Ok(())
}

/// Adds the objects of the next layer, and their range.
fn push_layer(
    numbers: &mut Vec<u32>,
    ranges: &mut Vec<MemberRange>,
    table: &[u32],
    layer: u32,
) -> Result<(), Memory>
    requires few { length table.now ≤ TABLE_LIMIT }
    requires long { vec_len ranges.old ≡ layer }
    requires each { AreRangesOf table.now numbers.old.items ranges.old.items }
    ensures long { OnOk result (vec_len ranges.new ≡ layer + 1) }
    ensures each { OnOk result (AreRangesOf table.now numbers.new.items ranges.new.items) }
{
    let start = numbers.len();
    push_members(numbers, table, layer)?;
    let range = MemberRange {
        start,
        end: numbers.len(),
    };
    ranges.push(range)?;
    Ok(())
}

/// A range, or an empty one in place of one of several objects.
fn shortened(range: MemberRange) -> MemberRange
    ensures { result ≡ short_range range }
{
    if range.end.saturating_sub(range.start) < SEVERAL_MEMBERS {
        return range;
    }
    MemberRange {
        start: range.start,
        end: range.start,
    }
}

/// Ranges, with an empty one in place of each of several objects.
fn all_shortened(alloc: Global, ranges: &[MemberRange]) -> Result<Vec<MemberRange>, Memory>
    ensures { IfOk result (λ short. short.items ≡ map short_range ranges.now) }
{
    let short: Vec<MemberRange> = ranges.iter().map(|range| shortened(*range)).collect(alloc)?;
    Ok(short)
}

/// The numbers of a range of a list.
fn numbers_in(numbers: &[u32], range: MemberRange) -> &[u32]
    requires order { range.start ≤ range.end }
    requires within { range.end ≤ length numbers.now }
    ensures { result.now ≡ slice_range numbers.now range.start range.end }
{
    &numbers[range.start..range.end]
}

impl Members {
    /// The members of so many layers, for objects which stand on these. Nothing, where there is no memory, or there
    /// are more objects than a table can have.
    pub fn try_new(alloc: Global, layers: u32, own_layers: &[LayerId]) -> Result<Members, Memory>
        ensures table { IfOk result (λ members. members.table.items ≡ map (λ layer. layer.0) own_layers.now) }
        ensures layers { IfOk result (λ members. vec_len members.ranges ≡ layers) }
    {
        if own_layers.len() > TABLE_LIMIT {
            return Err(Memory);
        }
        let table: Vec<u32> = own_layers.iter().map(|layer| layer.0).collect(alloc)?;
        let mut numbers = Vec::with_capacity(alloc, table.len())?;
        let mut ranges = Vec::with_capacity(alloc, layers as usize)?;
        for layer in 0..layers {
            push_layer(&mut numbers, &mut ranges, &table, layer)?;
        }
        let short = all_shortened(alloc, &ranges)?;
        Ok(Members {
            table,
            numbers,
            ranges,
            short,
        })
    }

    /// The same members. Nothing, where there is no memory.
    pub fn try_copy(&self, alloc: Global) -> Result<Members, Memory>
        ensures table { IfOk result (λ members. members.table.items ≡ self.now.table.items) }
        ensures layers { IfOk result (λ members. vec_len members.ranges ≡ vec_len self.now.ranges) }
    {
        let table = Vec::from_slice(alloc, &self.table)?;
        let numbers = Vec::from_slice(alloc, &self.numbers)?;
        let ranges = Vec::from_slice(alloc, &self.ranges)?;
        let short = Vec::from_slice(alloc, &self.short)?;
        Ok(Members {
            table,
            numbers,
            ranges,
            short,
        })
    }

    /// The number of objects.
    pub fn count(&self) -> u32
        ensures value { result ≡ length self.now.table.items }
        ensures few { result ≤ TABLE_LIMIT }
    {
        self.table.len() as u32
    }

    /// Whether others are made from the same table.
    pub fn has_table_of(&self, other: &Members) -> bool
        ensures { result ≡ true → other.now.table.items ≡ self.now.table.items }
    {
        self.table.as_slice() == other.table.as_slice()
    }

    /// The layer of an object.
    pub fn layer_of(&self, object: u32) -> u32
        requires { object < length self.now.table.items }
        ensures { slice_get self.now.table.items object ≡ Some result }
    {
        self.table[object as usize]
    }

    /// Whether an object is one of a layer.
    pub fn is_on(&self, object: u32, layer: u32) -> bool
        ensures { result ≡ is_number (slice_get self.now.table.items object) layer }
    {
        match self.table.get(object as usize) {
            Some(own) => *own == layer,
            None => false,
        }
    }

    /// The objects of a layer, the least number first.
    pub fn of(&self, layer: u32) -> &[u32]
        requires { layer < vec_len self.now.ranges }
        ensures { result.now ≡ on_layer self.now.table.items layer }
    {
        let range = self.ranges[layer as usize];
        numbers_in(self.numbers.as_slice(), range)
    }

    /// The range of a layer's objects.
    pub fn range_of(&self, layer: u32) -> MemberRange
        requires { layer < vec_len self.now.ranges }
        ensures order { result.start ≤ result.end }
        ensures within { result.end ≤ length self.now.numbers.items }
        ensures objects { let m = self.now in
            slice_range m.numbers.items result.start result.end ≡ on_layer m.table.items layer }
    {
        self.ranges[layer as usize]
    }

    /// The range of a layer's objects; an empty one, where they are several.
    pub fn short_range_of(&self, layer: u32) -> MemberRange
        requires { layer < vec_len self.now.ranges }
        ensures order { result.start ≤ result.end }
        ensures within { result.end ≤ length self.now.numbers.items }
        ensures objects { let m = self.now in result.start < result.end →
            slice_range m.numbers.items result.start result.end ≡ on_layer m.table.items layer }
    {
        self.short[layer as usize]
    }

    /// The objects of a range.
    pub fn in_range(&self, range: MemberRange) -> &[u32]
        requires order { range.start ≤ range.end }
        requires within { range.end ≤ length self.now.numbers.items }
        ensures { result.now ≡ slice_range self.now.numbers.items range.start range.end }
    {
        numbers_in(self.numbers.as_slice(), range)
    }

    /// Where an object stands in a range, if it does.
    pub fn place_in(&self, range: MemberRange, object: u32) -> Option<usize>
        requires { range.end ≤ length self.now.numbers.items }
        ensures place { IfSome result (λ place. slice_get self.now.numbers.items place ≡ Some object) }
        ensures within { IfSome result (λ place. place < range.end) }
    {
        for place in range.start..range.end {
            if self.numbers[place] == object {
                return Some(place);
            }
        }
        None
    }
}
