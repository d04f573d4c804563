//! Places of planes, numbered as they are met.

ghost use Rattle.std.specs.Prelude.{◌≡◌, ◌<◌, ◌≤◌, [], IfOk, OnOk, length, nat_eq};
ghost use Rattle.ps_model.specs.declared.limits.TheConstants.{SIDE_LIMIT};
ghost use Rattle.ps_rows.specs.PackedKeys.{AreNoted, AreTurned, IsWithin, KeepsKeys, number_at};

use crate::packed_keys::PackedKey;
use ps_model::Memory;
use std::alloc::Global;

/// The number of each place that isn't noted. No more places are noted than that.
pub const UNNOTED: u32 = 4294967295;

/// Why a board isn't packed.
#[derive(Clone, Copy, PartialEq, Debug)]
pub enum NotPacked {
    /// A place has a number for which the key has no room.
    Full,
    /// It isn't known that nothing moves on the board.
    Moves,
    /// Out of memory.
    Memory,
}

/// Places of planes of a size, numbered as they are met: those that were noted keep their numbers. The place of a cell
/// is its number, behind those of all cells of the planes before.
#[derive(Drop)]
pub struct NotedCells {
    pub width: u32,
    pub height: u32,
    /// For each place its number, or `UNNOTED`.
    pub numbers: Vec<u32>,
    /// The noted places, by their numbers.
    pub places: Vec<usize>,
    ghost some_column: { 0 < width },
    ghost narrow: { width ≤ SIDE_LIMIT },
    ghost some_row: { 0 < height },
    ghost short: { height ≤ SIDE_LIMIT },
    ghost noted: { AreNoted numbers.items places.items },
}

impl NotedCells {
    /// So many places, none of them noted, of planes of a size.
    ///
    /// # Errors
    ///
    /// `Memory`.
    pub fn try_new(
        alloc: Global,
        width: u32,
        height: u32,
        count: usize,
    ) -> Result<NotedCells, Memory>
        requires width { (0 < width) × (width ≤ SIDE_LIMIT) }
        requires height { (0 < height) × (height ≤ SIDE_LIMIT) }
        ensures count { IfOk result (λ cells. length cells.numbers.items ≡ count) }
        ensures none { IfOk result (λ cells. cells.places.items ≡ []) }
        ensures width { IfOk result (λ cells. cells.width ≡ width) }
        ensures height { IfOk result (λ cells. cells.height ≡ height) }
    {
        let numbers = Vec::from_elem(alloc, UNNOTED, count)?;
        Ok(NotedCells {
            width,
            height,
            numbers,
            places: Vec::new(alloc),
        })
    }

    /// The number of a place, which is noted where it has none.
    ///
    /// # Errors
    ///
    /// `Full` where no further place can be noted, or `Memory`.
    fn number_of(&mut self, place: usize) -> Result<u32, NotPacked>
        requires { place < length self.old.numbers.items }
        ensures number { IfOk result (λ number. number_at self.new.numbers.items place ≡ number) }
        ensures low { IfOk result (λ number. number < length self.new.places.items) }
        ensures kept { KeepsKeys self.old.numbers.items (length self.old.places.items) self.new.numbers.items
            (length self.new.places.items) }
        ensures long { length self.new.numbers.items ≡ length self.old.numbers.items }
        ensures width { self.new.width ≡ self.old.width }
        ensures height { self.new.height ≡ self.old.height }
    {
        let known = self.numbers[place];
        if known != UNNOTED {
            return Ok(known);
        }
        let number = self.places.len();
        if number == UNNOTED as usize {
            return Err(NotPacked::Full);
        }
        if self.places.push(place).is_err() {
            return Err(NotPacked::Memory);
        }
        self.numbers[place] = number as u32;
        Ok(number as u32)
    }

    /// Turns the bit of a place round in a key.
    ///
    /// # Errors
    ///
    /// `Full` where the key has no room for it, or `Memory`. What keys say stays.
    pub fn turn<const N: usize>(
        &mut self,
        key: &mut PackedKey<N>,
        place: usize,
    ) -> Result<(), NotPacked>
        requires place { place < length self.old.numbers.items }
        requires within { IsWithin (length self.old.places.items) key.old.words }
        ensures turned { OnOk result (AreTurned (λ q. nat_eq q place) self.old.numbers.items key.old.words
            (length self.new.places.items) self.new.numbers.items key.new.words) }
        ensures kept { KeepsKeys self.old.numbers.items (length self.old.places.items) self.new.numbers.items
            (length self.new.places.items) }
        ensures long { length self.new.numbers.items ≡ length self.old.numbers.items }
        ensures width { self.new.width ≡ self.old.width }
        ensures height { self.new.height ≡ self.old.height }
    {
        let number = self.number_of(place)?;
        if !key.turn(number) {
            return Err(NotPacked::Full);
        }
        Ok(())
    }
}
