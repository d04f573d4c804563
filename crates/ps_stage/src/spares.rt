//! Levels that are used again.

ghost use Rattle.std.specs.Prelude.{◌≡◌, IfOk, IfSome, IsSome, None};

use crate::parts::LevelParts;
use ps_board::Board;
use ps_model::Memory;
use ps_names::Names;
use std::alloc::Global;

/// The parts of levels that nobody plays any more, two at most, whatever is in them. A copy is made in such parts, if
/// their board has the size and the room for it, and only else takes memory.
#[derive(Drop)]
pub struct SpareLevels<B: Board> {
    first: Option<Box<LevelParts<B>>>,
    second: Option<Box<LevelParts<B>>>,
}

/// Takes parts away, if their board has the same size, as many layers and the same room as another one.
fn taken_if_alike<B: Board>(
    place: &mut Option<Box<LevelParts<B>>>,
    board: &B,
) -> Option<Box<LevelParts<B>>>
    ensures width { IfSome result (λ spare. (B.grid spare.value.board.value).width ≡ (B.grid board.now).width) }
    ensures height { IfSome result (λ spare. (B.grid spare.value.board.value).height ≡ (B.grid board.now).height) }
    ensures layers { IfSome result (λ spare. (B.grid spare.value.board.value).layers ≡ (B.grid board.now).layers) }
    ensures table { IfSome result (λ spare. B.table spare.value.board.value ≡ B.table board.now) }
{
    let spare = place.take()?;
    if board.is_alike(&*spare.board) {
        return Some(spare);
    }
    *place = Some(spare);
    None
}

/// Puts parts in the place of none, or of some whose board isn't alike; gives them back, where some with one that is
/// alike have the place.
fn given_back<B: Board>(
    place: &mut Option<Box<LevelParts<B>>>,
    parts: Box<LevelParts<B>>,
) -> Option<Box<LevelParts<B>>>
    ensures { IsSome place.new }
{
    if let Some(other) = place {
        if parts.board.is_alike(&*other.board) {
            return Some(parts);
        }
    }
    *place = Some(parts);
    None
}

impl<B: Board> SpareLevels<B> {
    /// No parts.
    pub fn none() -> SpareLevels<B> {
        SpareLevels {
            first: None,
            second: None,
        }
    }

    /// Takes away parts whose board has the same size, as many layers and the same room as another one.
    fn taken(&mut self, board: &B) -> Option<Box<LevelParts<B>>>
        ensures width { IfSome result (λ spare. (B.grid spare.value.board.value).width ≡ (B.grid board.now).width) }
        ensures height { IfSome result (λ spare.
            (B.grid spare.value.board.value).height ≡ (B.grid board.now).height) }
        ensures layers { IfSome result (λ spare.
            (B.grid spare.value.board.value).layers ≡ (B.grid board.now).layers) }
        ensures table { IfSome result (λ spare. B.table spare.value.board.value ≡ B.table board.now) }
    {
        if let Some(spare) = taken_if_alike(&mut self.first, board) {
            return Some(spare);
        }
        taken_if_alike(&mut self.second, board)
    }

    /// Parts like those of a level, whose board shows the same as this one. They have no text of a frame.
    ///
    /// # Errors
    ///
    /// `Memory`, where no spare board is alike, and no spare parts are lost.
    pub fn copy_of(
        &mut self,
        alloc: Global,
        parts: &LevelParts<B>,
        board: &B,
        names: &Names,
    ) -> Result<Box<LevelParts<B>>, Memory>
        ensures entry { IfOk result (λ copy. copy.value.entry ≡ parts.now.entry) }
        ensures grid { IfOk result (λ copy. B.grid copy.value.board.value ≡ B.grid board.now) }
        ensures origin { IfOk result (λ copy. B.origin copy.value.board.value ≡ B.grid board.now) }
        ensures table { IfOk result (λ copy. B.table copy.value.board.value ≡ B.table board.now) }
        ensures restart_board { IfOk result (λ copy.
            copy.value.restart_board.value ≡ parts.now.restart_board.value) }
        ensures room { IfOk result (λ copy. copy.value.room ≡ parts.now.room) }
        ensures frame { IfOk result (λ copy. copy.value.frame ≡ None) }
        ensures names { IfOk result (λ copy. copy.value.names.value ≡ names.now) }
    {
        let restart_board = parts.restart_board.clone()?;
        let Some(mut spare) = self.taken(board) else {
            return parts.try_copy(alloc, board, restart_board, names);
        };
        spare.copy_from(parts, board, restart_board, names);
        Ok(spare)
    }

    /// Keeps parts of a level that nobody plays any more, so that some whose board is alike are there. Where two are
    /// there already, they are dropped; some whose board isn't alike make room.
    pub fn keep(&mut self, parts: Box<LevelParts<B>>)
        ensures { IsSome self.new.first }
    {
        if let Some(parts) = given_back(&mut self.first, parts) {
            let _ = given_back(&mut self.second, parts);
        }
    }

    /// Keeps parts of a level that nobody plays any more, if there are any.
    pub fn keep_any(&mut self, parts: Option<Box<LevelParts<B>>>)
        ensures { IsSome parts → IsSome self.new.first }
    {
        if let Some(parts) = parts {
            self.keep(parts);
        }
    }
}
