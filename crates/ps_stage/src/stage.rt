//! A game with the text that is made on the side.

ghost use Rattle.std.specs.Prelude.{◌≡◌, ◌++◌, ◌≤◌, [], OnErr, OnOk, IfOk, codes};
ghost use Rattle.ps_model.specs.game.Outputs.{quit_line};
ghost use Rattle.ps_model.specs.session.Frames.{written_line};
ghost use Rattle.ps_model.specs.session.Rooms.{frame_in, room_after};
ghost use Rattle.ps_levels.specs.EntriesShown.{entries_shown};
ghost use Rattle.ps_stage.specs.Playable.{ArePlayable};
ghost use Rattle.ps_stage.specs.Touched.{AreTouched};

use crate::game::SessionGame;
use crate::levels::PlayedLevel;
use crate::workshop::Workshop;
use ps_board::{Board, Columns};
use ps_levels::Entry;
use ps_model::{Memory, Room};
use ps_screen::OutputText;
use std::alloc::Global;
use std::marker::Model;

/// A game in play, what its levels are made, turned and drawn with, and the text that a key makes. The text goes to the output
/// when all else is done, so that a key which fails writes nothing.
pub struct Stage<'g, B: Board> {
    pub(crate) game: SessionGame<'g>,
    pub(crate) workshop: Workshop<'g, B>,
    pub(crate) text: OutputText,
}

/// Written out, so that a function that owns a stage calls this where it returns, instead of dropping its parts.
impl<'g, B: Board> Drop for Stage<'g, B> {
    fn drop(self) {
        let Stage {
            game: _game,
            workshop: _workshop,
            text: _text,
        } = self;
    }
}

impl<'g, B: Board> Model for Stage<'g, B> {
    ghost use Rattle.std.specs.Prelude.{◌≡◌, ◌≤◌};
    ghost use Rattle.ps_stage.specs.Standings.{StageValue};

    ghost Value = { StageValue };

    ghost view = { λ s. record { game = s.game; text = s.text } };

    ghost invariant = { λ s. (s.workshop ≡ s.game.names) × (s.game.sides.most ≤ B.Words.limit) };
}

impl<'g, B: Board> Stage<'g, B> {
    /// A game without a text.
    ///
    /// # Errors
    ///
    /// `Memory`.
    pub fn new(alloc: Global, game: SessionGame<'g>) -> Result<Stage<'g, B>, Memory>
        requires { game.sides.most ≤ B.Words.limit }
        ensures game { IfOk result (λ stage. stage.game ≡ game.entry) }
        ensures text { IfOk result (λ stage. stage.text ≡ []) }
    {
        let workshop = Workshop::new(alloc, game.names())?;
        Ok(Stage {
            game,
            workshop,
            text: OutputText::new(alloc),
        })
    }

    /// The game.
    pub fn game(&self) -> &SessionGame<'g>
        ensures { result.now ≡ self.now.game }
    {
        &self.game
    }

    /// Moves the text that was made since it was forgotten to the end of another, and keeps none of it.
    ///
    /// # Errors
    ///
    /// `Memory`, and both are as before.
    pub fn move_text(&mut self, output: &mut OutputText) -> Result<(), Memory>
        ensures game { self.new.game ≡ self.old.game }
        ensures moved { OnOk result (output.new ≡ output.old ++ self.old.text) }
        ensures kept { OnErr result (output.new ≡ output.old) }
        ensures left { OnErr result (self.new.text ≡ self.old.text) }
    {
        output.append(&mut self.text)
    }

    /// Forgets the text, and keeps its room for the next.
    pub fn forget_text(&mut self)
        ensures game { self.new.game ≡ self.old.game }
        ensures text { self.new.text ≡ [] }
    {
        self.text.clear();
    }

    /// The entries of the game.
    pub(crate) fn entries(&self) -> &'g [Entry]
        ensures entries { entries_shown result.now ≡ self.now.game.entries }
        ensures playable { ArePlayable self.now.game.names self.now.game.entries }
    {
        self.game.entries()
    }

    /// Adds the line of the title.
    ///
    /// # Errors
    ///
    /// `Memory`.
    pub fn tell_title(&mut self) -> Result<(), Memory>
        ensures game { self.new.game ≡ self.old.game }
        ensures told { OnOk result (self.new.text ≡ self.old.text ++ written_line (codes "= ") self.old.game.title) }
    {
        self.text.add_line("= ", self.game.title())
    }

    /// Adds the line that says that the player quit.
    ///
    /// # Errors
    ///
    /// `Memory`.
    pub fn tell_quit(&mut self) -> Result<(), Memory>
        ensures game { self.new.game ≡ self.old.game }
        ensures told { OnOk result (self.new.text ≡ self.old.text ++ quit_line) }
    {
        self.text.add(b"* quit\n")
    }

    /// The room that the next frame of a board shows, where the last one showed a room. No memory is taken.
    #[inline(always)]
    pub fn room_after(&self, board: &B, last: Room) -> Room
        ensures { result ≡ room_after self.now.game.options.flickscreen self.now.game.names (B.grid board.now) last }
    {
        self.game.room_after(board, last)
    }

    /// Adds a frame of a level's board, of the room that it has where the game has rooms.
    ///
    /// # Errors
    ///
    /// `Memory`.
    pub fn show(&mut self, level: &mut PlayedLevel<B>) -> Result<(), Memory>
        requires { level.old.basis.names ≡ self.old.game.names }
        ensures game { self.new.game ≡ self.old.game }
        ensures level { level.new ≡ level.old }
        ensures shown { OnOk result (self.new.text ≡ self.old.text
            ++ frame_in self.old.game.options.flickscreen self.old.game.names level.old.board level.old.room) }
    {
        let size = self.game.options().flickscreen;
        level.show(&mut self.workshop, size, &mut self.text)
    }

    /// Keeps the boards of a level that nobody plays any more, to be used again. No memory is taken.
    pub fn keep_level(&mut self, level: PlayedLevel<B>)
        ensures { self.new ≡ self.old }
    {
        level.give_back(&mut self.workshop);
    }

    /// Hands the board of a level that is left on to the next one, for its turns, or else keeps it to be used again.
    /// The two levels show the same objects outside of these rows. No memory is taken.
    #[inline(always)]
    pub fn hand_on(
        &mut self,
        level: PlayedLevel<B>,
        next: &mut PlayedLevel<B>,
        rows: &Columns<B::Words>,
    )
        requires touched { AreTouched rows.now level.board next.old.board }
        requires basis { level.basis ≡ next.old.basis }
        ensures stage { self.new ≡ self.old }
        ensures next { next.new ≡ next.old }
    {
        level.hand_on(&mut self.workshop, next, rows);
    }

    /// A level with a board that the history had, of which the last frame showed that room.
    ///
    /// # Errors
    ///
    /// `Memory`.
    pub fn level_at(
        &mut self,
        level: &mut PlayedLevel<B>,
        board: &B,
        room: Room,
    ) -> Result<PlayedLevel<B>, Memory>
        requires table { B.table board.now ≡ level.old.basis.table }
        requires names { level.old.basis.names ≡ self.old.game.names }
        ensures stage { self.new ≡ self.old }
        ensures level { level.new ≡ level.old }
        ensures entry { IfOk result (λ back. back.entry ≡ level.old.entry) }
        ensures basis { IfOk result (λ back. back.basis ≡ level.old.basis) }
        ensures board { IfOk result (λ back. back.board ≡ B.grid board.now) }
        ensures restart_board { IfOk result (λ back. back.restart_board ≡ level.old.restart_board) }
        ensures room { IfOk result (λ back. back.room ≡ room) }
    {
        level.with_board(&mut self.workshop, board, room)
    }

    /// Adds the line of a message.
    ///
    /// # Errors
    ///
    /// `Memory`.
    pub(crate) fn tell(&mut self, message: &str) -> Result<(), Memory>
        ensures game { self.new.game ≡ self.old.game }
        ensures told { OnOk result (self.new.text ≡ self.old.text ++ written_line (codes "! ") message.now) }
    {
        self.text.add_message(message)
    }
}
