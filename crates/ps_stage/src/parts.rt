//! What a level that is played has.

ghost use Rattle.std.specs.Prelude.{◌≡◌, IfOk, None, OnOk, if◌then◌else◌};
ghost use Rattle.ps_model.specs.session.StartSteps.{first_room};
ghost use Rattle.ps_board.specs.Rows.{DifferOnlyOn};
ghost use Rattle.ps_screen.specs.FrameTexts.{IsFrameOf};
ghost use Rattle.ps_turn.specs.States.{HaveSameSides};

use crate::entries::EntryNumber;
use crate::workshop::Workshop;
use ps_board::{Board, Columns};
use ps_model::{Memory, Room};
use ps_names::Names;
use ps_screen::FrameText;
use ps_turn::DoneTurn;
use std::alloc::Global;
use std::rc::Rc;
use std::snapshot::Snapshot;

/// What a level that is played has: its entry, its board, the board that a restart goes back to, which the levels
/// after its turns share until a checkpoint, and the room that the last frame showed. The text of its board's frame
/// goes with it, if it was drawn: after a turn what the turn has changed is drawn anew.
pub struct LevelParts<B: Board> {
    pub entry: EntryNumber,
    pub board: Box<B>,
    pub restart_board: Rc<Box<B>, Global>,
    pub room: Room,
    pub frame: Option<FrameText>,
    /// The names that the frame is drawn by.
    pub names: Snapshot<Names>,
}

/// Written out, so that a function that owns these calls this where it returns, instead of dropping the boards.
impl<B: Board> Drop for LevelParts<B> {
    fn drop(self) {
        let LevelParts {
            entry: _entry,
            board: _board,
            restart_board: _restart_board,
            room: _,
            frame: _frame,
            names: _names,
        } = self;
    }
}

/// A board that shows what this one does, for restarts to go back to.
///
/// # Errors
///
/// `Memory`.
fn checkpoint_of<B: Board>(alloc: Global, board: &B) -> Result<Rc<Box<B>, Global>, Memory>
    ensures grid { IfOk result (λ copy. B.grid copy.value.value ≡ B.grid board.now) }
    ensures table { IfOk result (λ copy. B.table copy.value.value ≡ B.table board.now) }
{
    let copy = board.try_copy(alloc)?;
    let copy = Box::new(alloc, copy)?;
    let shared = Rc::new(alloc, copy)?;
    Ok(shared)
}

/// The board that a restart goes back to after a done turn that came to a board: this one, where the turn set a
/// checkpoint.
///
/// # Errors
///
/// `Memory`.
#[inline(always)]
pub fn restart_board_behind<B: Board>(
    alloc: Global,
    board: &B,
    restart_board: &Rc<Box<B>, Global>,
    done: &DoneTurn,
) -> Result<Rc<Box<B>, Global>, Memory>
    requires { B.table restart_board.now.value.value ≡ B.table board.now }
    ensures grid { IfOk result (λ next. B.grid next.value.value
        ≡ (if done.now.checkpoint then B.grid board.now else B.grid restart_board.now.value.value)) }
    ensures table { IfOk result (λ next. B.table next.value.value ≡ B.table board.now) }
{
    if done.checkpoint {
        return checkpoint_of(alloc, board);
    }
    let same = restart_board.clone()?;
    Ok(same)
}

impl<B: Board> LevelParts<B> {
    /// Those of a level at its start, which has this board.
    ///
    /// # Errors
    ///
    /// `Memory`.
    pub fn at_start(
        alloc: Global,
        names: &Names,
        entry: EntryNumber,
        board: B,
    ) -> Result<Box<LevelParts<B>>, Memory>
        ensures entry { IfOk result (λ parts. parts.value.entry ≡ entry) }
        ensures grid { IfOk result (λ parts. B.grid parts.value.board.value ≡ B.grid board) }
        ensures table { IfOk result (λ parts. B.table parts.value.board.value ≡ B.table board) }
        ensures restart_board { IfOk result (λ parts. B.grid parts.value.restart_board.value.value ≡ B.grid board) }
        ensures restart_table { IfOk result (λ parts. B.table parts.value.restart_board.value.value ≡ B.table board) }
        ensures room { IfOk result (λ parts. parts.value.room ≡ first_room) }
        ensures frame { IfOk result (λ parts. parts.value.frame ≡ None) }
        ensures names { IfOk result (λ parts. parts.value.names.value ≡ names.now) }
    {
        let board = Box::new(alloc, board)?;
        let restart_board = checkpoint_of(alloc, &*board)?;
        let parts = LevelParts {
            entry,
            board,
            restart_board,
            room: Room { x: 0, y: 0 },
            frame: None,
            names: Snapshot::of(names),
        };
        let parts = Box::new(alloc, parts)?;
        Ok(parts)
    }

    /// Parts like these, whose board shows the same as this one, with a share of the board that a restart goes back to.
    /// They have no text of a frame.
    ///
    /// # Errors
    ///
    /// `Memory`.
    pub fn try_copy(
        &self,
        alloc: Global,
        board: &B,
        restart_board: Rc<Box<B>, Global>,
        names: &Names,
    ) -> Result<Box<LevelParts<B>>, Memory>
        ensures entry { IfOk result (λ copy. copy.value.entry ≡ self.now.entry) }
        ensures grid { IfOk result (λ copy. B.grid copy.value.board.value ≡ B.grid board.now) }
        ensures origin { IfOk result (λ copy. B.origin copy.value.board.value ≡ B.grid board.now) }
        ensures table { IfOk result (λ copy. B.table copy.value.board.value ≡ B.table board.now) }
        ensures restart_board { IfOk result (λ copy. copy.value.restart_board ≡ restart_board) }
        ensures room { IfOk result (λ copy. copy.value.room ≡ self.now.room) }
        ensures frame { IfOk result (λ copy. copy.value.frame ≡ None) }
        ensures names { IfOk result (λ copy. copy.value.names.value ≡ names.now) }
    {
        let copy = board.try_copy(alloc)?;
        let board = Box::new(alloc, copy)?;
        let copy = LevelParts {
            entry: self.entry.copied(),
            board,
            restart_board,
            room: self.room,
            frame: None,
            names: Snapshot::of(names),
        };
        let copy = Box::new(alloc, copy)?;
        Ok(copy)
    }

    /// Become parts like others, whose board shows the same as this one, with a share of the board that a restart goes
    /// back to. They have no text of a frame. No memory is taken.
    pub fn copy_from(
        &mut self,
        parts: &LevelParts<B>,
        board: &B,
        restart_board: Rc<Box<B>, Global>,
        names: &Names,
    )
        requires width { (B.grid self.old.board.value).width ≡ (B.grid board.now).width }
        requires height { (B.grid self.old.board.value).height ≡ (B.grid board.now).height }
        requires layers { (B.grid self.old.board.value).layers ≡ (B.grid board.now).layers }
        requires table { B.table self.old.board.value ≡ B.table board.now }
        ensures entry { self.new.entry ≡ parts.now.entry }
        ensures grid { B.grid self.new.board.value ≡ B.grid board.now }
        ensures origin { B.origin self.new.board.value ≡ B.grid board.now }
        ensures table { B.table self.new.board.value ≡ B.table board.now }
        ensures restart_board { self.new.restart_board ≡ restart_board }
        ensures room { self.new.room ≡ parts.now.room }
        ensures frame { self.new.frame ≡ None }
        ensures names { self.new.names.value ≡ names.now }
    {
        board.copy_into(&mut *self.board);
        self.entry = parts.entry.copied();
        self.restart_board = restart_board;
        self.room = parts.room;
        self.frame = None;
        self.names = Snapshot::of(names);
    }

    /// Become the parts of the level after a done turn that came to their board, from that of these. The text of the
    /// frame before, if it was drawn, is handed on, and made that of their board. The answer is the rows that the turn
    /// touched: outside of them the two boards show the same objects.
    ///
    /// # Errors
    ///
    /// `Memory`, and they have the same board.
    pub fn follow(
        &mut self,
        workshop: &mut Workshop<'_, B>,
        before: &LevelParts<B>,
        frame: Option<FrameText>,
        done: &DoneTurn,
    ) -> Result<Columns<B::Words>, Memory>
        requires sides { HaveSameSides (B.grid self.old.board.value) (B.grid before.now.board.value) }
        requires table { B.table self.old.board.value ≡ B.table before.now.board.value }
        requires restart_table { B.table before.now.restart_board.value.value ≡ B.table before.now.board.value }
        requires origin { B.origin self.old.board.value ≡ B.grid before.now.board.value }
        requires frame { IsFrameOf workshop.old (B.grid before.now.board.value) frame }
        ensures workshop { workshop.new ≡ workshop.old }
        ensures rows { IfOk result (λ rows.
            DifferOnlyOn rows (B.grid before.now.board.value) (B.grid self.old.board.value)) }
        ensures board { self.new.board ≡ self.old.board }
        ensures entry { OnOk result (self.new.entry ≡ before.now.entry) }
        ensures restart_board { OnOk result (B.grid self.new.restart_board.value.value ≡ (if done.now.checkpoint
            then B.grid self.old.board.value else B.grid before.now.restart_board.value.value)) }
        ensures restart_table { OnOk result
            (B.table self.new.restart_board.value.value ≡ B.table self.old.board.value) }
        ensures room { OnOk result (self.new.room ≡ before.now.room) }
        ensures frame { OnOk result (IsFrameOf workshop.old (B.grid self.old.board.value) self.new.frame) }
        ensures names { OnOk result (self.new.names.value ≡ workshop.old) }
    {
        let rows = self.board.rows_touched();
        self.frame = frame;
        let picture = &mut workshop.picture;
        picture.redraw(&mut self.frame, &*before.board, &*self.board, rows)?;
        self.restart_board = restart_board_behind(
            workshop.alloc,
            &*self.board,
            &before.restart_board,
            done,
        )?;
        self.entry = before.entry.copied();
        self.room = before.room;
        self.names = Snapshot::of(workshop.names);
        Ok(rows)
    }
}
