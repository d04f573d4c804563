//! A board that keeps its slots in one list.

ghost use Rattle.std.specs.Prelude.{◌≡◌, ℕ, ◌+◌, ◌*◌, ◌<◌, ◌≤◌, IfOk, None, drop, length, map, take};
ghost use Rattle.std.specs.Prelude.{true, vec_len};
ghost use Rattle.std.specs.Simd.{first_chunks};
ghost use Rattle.ps_model.specs.board.Grid.{cell_at, object_in, slot_at, slot_at_rest, slot_of};
ghost use Rattle.ps_model.specs.declared.limits.TheConstants.{LAYER_LIMIT, SIDE_LIMIT};

use crate::board::Board;
use crate::columns::Columns;
use crate::many_words::{ManyWords, WORDS_LIMIT};
use crate::slots::{is_moving, same_slots, slot_holds};
use ps_model::{Direction, LayerId, Memory, Motion, ObjectId, Slot};
use std::alloc::Global;
use std::snapshot::Snapshot;

/// A board as one list of slots: the cells in the order of their numbers, and of each cell its layers, the lowest
/// first.
#[derive(Drop)]
pub struct ListBoard {
    width: u32,
    height: u32,
    layers: u32,
    slots: Vec<Slot>,
    /// What the slots were when the board was last made to show what another one does, or else when it was made.
    origin: Snapshot<Vec<Slot>>,
    ghost some_column: { 0 < width },
    ghost columns: { width ≤ SIDE_LIMIT },
    ghost some_row: { 0 < height },
    ghost rows: { height ≤ SIDE_LIMIT },
    ghost some_layer: { 0 < layers },
    ghost few_layers: { layers ≤ LAYER_LIMIT },
    ghost whole: { vec_len slots ≡ width * height * layers },
}

impl ListBoard {
    /// Where the slot of a cell on a layer stands in the list.
    fn place(&self, cell: u32, layer: LayerId) -> usize
        requires cell { cell < self.now.width * self.now.height }
        requires layer { layer.0 < self.now.layers }
        ensures place { result ≡ cell * self.now.layers + layer.0 }
        ensures within { result < vec_len self.now.slots }
    {
        (cell * self.layers + layer.0) as usize
    }

    /// The slot of a cell on a layer.
    fn slot(&self, cell: u32, layer: LayerId) -> Slot
        requires cell { cell < self.now.width * self.now.height }
        requires layer { layer.0 < self.now.layers }
        ensures { result ≡ slot_at (⟦<ListBoard as Board>⟧.grid self.now) cell layer.0 }
    {
        self.slots[self.place(cell, layer)]
    }

    /// The slots of a cell.
    fn cell_slots(&self, cell: u32) -> &[Slot]
        requires { cell < self.now.width * self.now.height }
        ensures cell { result.now ≡ cell_at (⟦<ListBoard as Board>⟧.grid self.now) cell }
        ensures whole { length result.now ≡ self.now.layers }
    {
        let start = self.place(cell, LayerId(0));
        stretch(self.slots.as_slice(), start, self.layers as usize)
    }

    /// Whether a cell has the same slots on another board of the same size with as many layers.
    fn same_cell(&self, other: &ListBoard, cell: u32) -> bool
        requires cell { cell < self.now.width * self.now.height }
        requires width { other.now.width ≡ self.now.width }
        requires height { other.now.height ≡ self.now.height }
        requires layers { other.now.layers ≡ self.now.layers }
        ensures { result ≡ true → map object_in (cell_at (⟦<ListBoard as Board>⟧.grid self.now) cell)
            ≡ map object_in (cell_at (⟦<ListBoard as Board>⟧.grid other.now) cell) }
    {
        same_slots(self.cell_slots(cell), other.cell_slots(cell))
    }
}

/// So many slots, from a place on.
fn stretch(slots: &[Slot], start: usize, count: usize) -> &[Slot]
    requires { start + count ≤ length slots.now }
    ensures stretch { result.now ≡ take count (drop start slots.now) }
    ensures whole { length result.now ≡ count }
{
    &slots[start..start + count]
}

/// The same slot, its object at rest.
fn rested(slot: Slot) -> Slot
    ensures { result ≡ slot_at_rest slot }
{
    match slot {
        Slot::Bare => Slot::Bare,
        Slot::Holds { object, .. } => Slot::Holds {
            object,
            motion: Motion::Still,
        },
    }
}

/// The slot with an object and its motion, or without an object.
fn slot_with(object: Option<ObjectId>, motion: Motion) -> Slot
    ensures { result ≡ slot_of object motion }
{
    match object {
        None => Slot::Bare,
        Some(object) => Slot::Holds { object, motion },
    }
}

impl Board for ListBoard {
    ghost grid = { λ b. record {
      width = b.width;
      height = b.height;
      layers = b.layers;
      cells = first_chunks b.layers (b.width * b.height) b.slots.items;
    } };

    ghost table = { λ _. None };

    ghost origin = { λ b. record {
      width = b.width;
      height = b.height;
      layers = b.layers;
      cells = first_chunks b.layers (b.width * b.height) b.origin.value.items;
    } };

    ghost table_for = { λ _. None };

    type Words = ManyWords<WORDS_LIMIT>;

    /// Any object may stand on any layer, so the objects' own layers aren't kept.
    fn try_empty(
        alloc: Global,
        width: u32,
        height: u32,
        layers: u32,
        _own_layers: &[LayerId],
    ) -> Result<ListBoard, Memory> {
        let count = width * height * layers;
        let slots = Vec::from_elem(alloc, Slot::Bare, count as usize)?;
        let origin = Snapshot::of(&slots);
        Ok(ListBoard {
            width,
            height,
            layers,
            slots,
            origin,
        })
    }

    fn try_copy(&self, alloc: Global) -> Result<ListBoard, Memory> {
        let slots = Vec::from_slice(alloc, &self.slots)?;
        let origin = Snapshot::of(&slots);
        Ok(ListBoard {
            width: self.width,
            height: self.height,
            layers: self.layers,
            slots,
            origin,
        })
    }

    fn size(&self) -> (u32, u32) {
        (self.width, self.height)
    }

    fn layers(&self) -> u32 {
        self.layers
    }

    fn object(&self, cell: u32, layer: LayerId) -> Option<ObjectId> {
        match self.slot(cell, layer) {
            Slot::Bare => None,
            Slot::Holds { object, .. } => Some(object),
        }
    }

    fn motion(&self, cell: u32, layer: LayerId) -> Motion {
        match self.slot(cell, layer) {
            Slot::Bare => Motion::Still,
            Slot::Holds { motion, .. } => motion,
        }
    }

    fn may_go(&self, _layer: LayerId, _direction: Direction) -> bool {
        true
    }

    fn goes(&self, cell: u32, layer: LayerId, direction: Direction) -> bool {
        match (self.motion(cell, layer), direction) {
            (Motion::Going(Direction::Up), Direction::Up)
            | (Motion::Going(Direction::Down), Direction::Down)
            | (Motion::Going(Direction::Left), Direction::Left)
            | (Motion::Going(Direction::Right), Direction::Right) => true,
            _ => false,
        }
    }

    fn put(&mut self, cell: u32, layer: LayerId, object: Option<ObjectId>, motion: Motion) {
        let place = self.place(cell, layer);
        self.slots[place] = slot_with(object, motion);
    }

    fn set_motion(&mut self, cell: u32, layer: LayerId, motion: Motion) {
        let object = self.object(cell, layer);
        self.put(cell, layer, object, motion);
    }

    fn shift(&mut self, cell: u32, to: u32, layer: LayerId) {
        let object = self.object(cell, layer);
        self.put(to, layer, object, Motion::Still);
        self.put(cell, layer, None, Motion::Still);
    }

    fn clear_moves(&mut self) {
        for slot in self.slots.iter_mut() {
            *slot = rested(*slot);
        }
    }

    fn copy_into(&self, other: &mut ListBoard) {
        other.slots.copy_from_slice(&self.slots);
        other.origin = Snapshot::of(&other.slots);
    }

    fn same(&self, other: &ListBoard) -> bool {
        same_slots(self.slots.as_slice(), other.slots.as_slice())
    }

    fn movers(&self, layer: LayerId, row: u32) -> Columns<ManyWords<WORDS_LIMIT>> {
        let mut moving = Columns::none();
        for column in 0..self.width {
            let slot = self.slot(column * self.height + row, layer);
            moving = moving.with(column, is_moving(slot));
        }
        moving
    }

    fn holders(
        &self,
        object: ObjectId,
        layer: LayerId,
        row: u32,
    ) -> Columns<ManyWords<WORDS_LIMIT>> {
        let mut holding = Columns::none();
        for column in 0..self.width {
            let slot = self.slot(column * self.height + row, layer);
            holding = holding.with(column, slot_holds(object, slot));
        }
        holding
    }

    /// All rows: to know which, this board would have to look at each cell.
    fn rows_moving_any(&self) -> Columns<ManyWords<WORDS_LIMIT>> {
        Columns::below(self.height)
    }

    /// All rows, likewise.
    fn rows_moving_on(&self, _layer: LayerId) -> Columns<ManyWords<WORDS_LIMIT>> {
        Columns::below(self.height)
    }

    /// All rows, likewise.
    fn rows_holding(&self, _object: ObjectId) -> Columns<ManyWords<WORDS_LIMIT>> {
        Columns::below(self.height)
    }

    /// That column alone.
    fn alike(&self, _row: u32, column: u32) -> Columns<ManyWords<WORDS_LIMIT>> {
        Columns::none().with(column, true)
    }

    fn is_alike(&self, other: &ListBoard) -> bool {
        self.width == other.width && self.height == other.height && self.layers == other.layers
    }

    fn differing(&self, other: &ListBoard, row: u32) -> Columns<ManyWords<WORDS_LIMIT>> {
        let mut differing = Columns::none();
        for column in 0..self.width {
            let same = self.same_cell(other, column * self.height + row);
            differing = differing.with(column, !same);
        }
        differing
    }

    /// All rows, likewise.
    fn rows_differing(&self, _other: &ListBoard) -> Columns<ManyWords<WORDS_LIMIT>> {
        Columns::below(self.height)
    }

    /// All rows, likewise.
    fn rows_touched(&self) -> Columns<ManyWords<WORDS_LIMIT>> {
        Columns::below(self.height)
    }

    /// All rows are looked at.
    fn same_on(&self, other: &ListBoard, _rows: &Columns<ManyWords<WORDS_LIMIT>>) -> bool {
        self.same(other)
    }

    /// All rows are copied.
    fn copy_rows(&self, other: &mut ListBoard, _rows: &Columns<ManyWords<WORDS_LIMIT>>) {
        self.copy_into(other);
    }
}
