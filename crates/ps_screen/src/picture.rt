//! Frames, drawn by a picture.

ghost use Rattle.std.specs.Prelude.{◌≡◌, ◌++◌, IfOk, IsSome, OnOk, OnErr};
ghost use Rattle.ps_model.specs.session.Rooms.{frame_in};
ghost use Rattle.ps_board.specs.Rows.{DifferOnlyOn};
ghost use Rattle.ps_screen.specs.FrameTexts.{IsFrameOf};

use crate::cells::CellSpace;
use crate::frame_texts::{FrameText, add_text, draw_text, patch_text};
use crate::look::Look;
use crate::output_text::OutputText;
use crate::rooms::room_window;
use crate::windows::add_window;
use ps_board::{Board, Columns};
use ps_model::{Memory, Room, RoomSize};
use ps_names::Names;
use std::alloc::Global;
use std::marker::Model;

/// The frames of a game: what they need of its names, made ready once. Contracts see the names.
///
/// The text of a board's frame belongs to the owner of the board. It is drawn when the board is first shown. After a
/// change it is drawn anew only where the board shows other objects.
#[derive(Drop)]
pub struct Picture<'g> {
    alloc: Global,
    look: Look<'g>,
    space: CellSpace,
}

impl<'g> Model for Picture<'g> {
    ghost use Rattle.ps_model.specs.names.Names.{Names as Meant};

    ghost Value = { Meant };

    ghost view = { λ p. p.look };
}

impl<'g> Picture<'g> {
    /// A picture for the game of these names.
    ///
    /// # Errors
    ///
    /// `Memory`.
    pub fn new(alloc: Global, names: &'g Names) -> Result<Picture<'g>, Memory>
        ensures { IfOk result (λ picture. picture ≡ names.entry.now) }
    {
        let look = Look::new(alloc, names)?;
        Ok(Picture {
            alloc,
            look,
            space: CellSpace::new(alloc),
        })
    }

    /// Makes the text of a board's frame, if there is one, that of another board alike, which shows the same objects
    /// outside of these rows. What differs in them is drawn. There is no text any more, where it was kept whole and one
    /// of its characters would be of more than one byte.
    ///
    /// # Errors
    ///
    /// `Memory`, and there is no text any more.
    pub fn redraw<B: Board>(
        &mut self,
        frame: &mut Option<FrameText>,
        shown: &B,
        board: &B,
        rows: Columns<B::Words>,
    ) -> Result<(), Memory>
        requires width { (B.grid shown.now).width ≡ (B.grid board.now).width }
        requires height { (B.grid shown.now).height ≡ (B.grid board.now).height }
        requires layers { (B.grid shown.now).layers ≡ (B.grid board.now).layers }
        requires table { B.table shown.now ≡ B.table board.now }
        requires rows { DifferOnlyOn rows (B.grid shown.now) (B.grid board.now) }
        requires frame { IsFrameOf self.old (B.grid shown.now) frame.old }
        ensures names { self.new ≡ self.old }
        ensures frame { IsFrameOf self.old (B.grid board.now) frame.new }
    {
        let Some(text) = frame else {
            return Ok(());
        };
        let patched = patch_text(&self.look, shown, board, rows, &mut self.space, text);
        if let Ok(true) = patched {
            return Ok(());
        }
        *frame = None;
        patched.and(Ok(()))
    }

    /// Draws the frame of a board, if there is no text of it.
    ///
    /// # Errors
    ///
    /// `Memory`, and there is none.
    fn draw<B: Board>(&mut self, frame: &mut Option<FrameText>, board: &B) -> Result<(), Memory>
        requires { IsFrameOf self.old (B.grid board.now) frame.old }
        ensures names { self.new ≡ self.old }
        ensures frame { IsFrameOf self.old (B.grid board.now) frame.new }
        ensures drawn { OnOk result (IsSome frame.new) }
    {
        if frame.is_none() {
            let text = draw_text(self.alloc, &self.look, board, &mut self.space)?;
            *frame = Some(text);
        }
        Ok(())
    }

    /// Adds a frame of a board to an output, by the text of it, which is drawn, if there is none yet: of a room, as far
    /// as the board goes, where the game has rooms, and else of the whole board; its rows from the top, then an empty
    /// line.
    ///
    /// # Errors
    ///
    /// `Memory`, and the output is as before.
    pub fn show<B: Board>(
        &mut self,
        frame: &mut Option<FrameText>,
        board: &B,
        size: Option<RoomSize>,
        room: Room,
        output: &mut OutputText,
    ) -> Result<(), Memory>
        requires { IsFrameOf self.old (B.grid board.now) frame.old }
        ensures names { self.new ≡ self.old }
        ensures frame { IsFrameOf self.old (B.grid board.now) frame.new }
        ensures shown { OnOk result (output.new ≡ output.old ++ frame_in size self.old (B.grid board.now) room) }
        ensures kept { OnErr result (output.new ≡ output.old) }
    {
        self.draw(frame, board)?;
        let Some(text) = frame else {
            return Ok(());
        };
        match size {
            None => add_text(&self.look, board, text, output),
            Some(size) => {
                let window = room_window(board, size, room);
                add_window(&self.look, board, window, text, &mut self.space, output)
            }
        }
    }
}
