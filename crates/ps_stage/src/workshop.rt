//! What levels are made, turned and drawn with.

ghost use Rattle.std.specs.Prelude.{◌≡◌, IfOk, None};

use crate::parts::LevelParts;
use crate::spares::SpareLevels;
use ps_board::Board;
use ps_model::Memory;
use ps_names::Names;
use ps_screen::Picture;
use std::alloc::Global;
use std::marker::Model;

/// What levels of a game are made, turned and drawn with: memory, the names of the game, the picture that draws frames
/// by them, and parts of levels that nobody plays any more. Clauses see the names.
#[derive(Drop)]
pub struct Workshop<'g, B: Board> {
    pub alloc: Global,
    pub names: &'g Names,
    pub picture: Picture<'g>,
    pub spares: SpareLevels<B>,
}

impl<'g, B: Board> Model for Workshop<'g, B> {
    ghost use Rattle.std.specs.Prelude.{◌≡◌};
    ghost use Rattle.ps_model.specs.names.Names.{Names};

    ghost Value = { Names };

    ghost view = { λ w. w.names.now };

    ghost invariant = { λ w. w.picture ≡ w.names.now };
}

impl<'g, B: Board> Workshop<'g, B> {
    /// A workshop for a game of these names, without parts of levels.
    ///
    /// # Errors
    ///
    /// `Memory`.
    pub fn new(alloc: Global, names: &'g Names) -> Result<Workshop<'g, B>, Memory>
        ensures { IfOk result (λ workshop. workshop ≡ names.now) }
    {
        let picture = Picture::new(alloc, names)?;
        Ok(Workshop {
            alloc,
            names,
            picture,
            spares: SpareLevels::none(),
        })
    }

    /// The memory.
    pub fn alloc(&self) -> Global {
        self.alloc
    }

    /// Parts like those of a level, whose board shows the same as this one. They have no text of a frame.
    ///
    /// # Errors
    ///
    /// `Memory`, where no spare board is alike, and no spare parts are lost.
    pub fn copy_of(
        &mut self,
        parts: &LevelParts<B>,
        board: &B,
    ) -> Result<Box<LevelParts<B>>, Memory>
        ensures workshop { self.new ≡ self.old }
        ensures entry { IfOk result (λ copy. copy.value.entry ≡ parts.now.entry) }
        ensures grid { IfOk result (λ copy. B.grid copy.value.board.value ≡ B.grid board.now) }
        ensures origin { IfOk result (λ copy. B.origin copy.value.board.value ≡ B.grid board.now) }
        ensures table { IfOk result (λ copy. B.table copy.value.board.value ≡ B.table board.now) }
        ensures restart_board { IfOk result (λ copy.
            copy.value.restart_board.value ≡ parts.now.restart_board.value) }
        ensures room { IfOk result (λ copy. copy.value.room ≡ parts.now.room) }
        ensures frame { IfOk result (λ copy. copy.value.frame ≡ None) }
        ensures names { IfOk result (λ copy. copy.value.names.value ≡ self.old) }
    {
        self.spares.copy_of(self.alloc, parts, board, self.names)
    }
}
