//! The cells of a level.

ghost use Rattle.std.specs.Prelude.{◌≡◌, ◌<◌, ◌≤◌, ◌++◌, ◌∷◌, [], length, map, slice_index_or, IfOk, OnOk, All};
ghost use Rattle.std.specs.Prelude.{option_to_list, vec_len};
ghost use Rattle.ps_levels.specs.ObjectSpans.{IsWithin, objects_in};

use ps_model::{Memory, ObjectId};
use std::alloc::Global;
use std::marker::Model;

/// Where the objects of a cell stand in the list of those of all cells.
#[derive(Clone, Copy)]
struct ObjectSpan {
    start: usize,
    end: usize,
}

/// The objects of each cell of a level, those of all cells in one list. Contracts see a list for each cell.
#[derive(Drop)]
pub struct Cells {
    objects: Vec<ObjectId>,
    spans: Vec<ObjectSpan>,
    ghost within: { All (IsWithin objects.items) spans.items },
}

impl Model for Cells {
    ghost use Rattle.std.specs.Prelude.{List, map};
    ghost use Rattle.ps_model.specs.declared.pieces.ObjectId.{ObjectId as Object};
    ghost use Rattle.ps_levels.specs.ObjectSpans.{objects_in};

    ghost Value = { List (List Object) };

    ghost view = { λ c. map (objects_in c.objects.items) c.spans.items };
}

/// Adds objects.
fn add_all(list: &mut Vec<ObjectId>, objects: &[ObjectId]) -> Result<(), Memory>
    ensures added { OnOk result (list.new.items ≡ list.old.items ++ objects.now) }
    ensures grown { vec_len list.old ≤ vec_len list.new }
{
    for object in objects {
        list.push(*object)?;
    }
    Ok(())
}

/// Adds an object, if it is given.
fn add_one(list: &mut Vec<ObjectId>, object: Option<ObjectId>) -> Result<(), Memory>
    ensures added { OnOk result (list.new.items ≡ list.old.items ++ option_to_list object) }
    ensures grown { vec_len list.old ≤ vec_len list.new }
{
    let Some(object) = object else {
        return Ok(());
    };
    list.push(object)?;
    Ok(())
}

impl Cells {
    /// No cells, with room for `count`.
    pub(crate) fn with_room(alloc: Global, count: usize) -> Result<Cells, Memory>
        ensures { IfOk result (λ cells. cells ≡ []) }
    {
        Ok(Cells {
            objects: Vec::with_capacity(alloc, count)?,
            spans: Vec::with_capacity(alloc, count)?,
        })
    }

    /// The number of cells.
    pub fn len(&self) -> usize
        ensures { result ≡ length self.now }
    {
        self.spans.len()
    }

    /// The objects of a cell.
    pub fn cell(&self, number: usize) -> &[ObjectId]
        requires { number < length self.now }
        ensures { result.now ≡ slice_index_or self.now number [] }
    {
        let span = self.spans[number];
        &self.objects[span.start..span.end]
    }

    /// Adds a cell with these objects, and with one more if it is given.
    pub(crate) fn push(
        &mut self,
        objects: &[ObjectId],
        more: Option<ObjectId>,
    ) -> Result<(), Memory>
        ensures { OnOk result (self.new ≡ self.old ++ (objects.now ++ option_to_list more) ∷ []) }
    {
        let start = self.objects.len();
        add_all(&mut self.objects, objects)?;
        add_one(&mut self.objects, more)?;
        let end = self.objects.len();
        self.spans.push(ObjectSpan { start, end })?;
        Ok(())
    }
}
