//! The frames of an output.

ghost use Rattle.std.specs.Prelude.{◌≡◌, ◌<◌, [], ◌∷◌, ◌++◌, length, OnOk};
ghost use Rattle.std.specs.Str.{bytes_eq};
ghost use Rattle.ps_view.specs.Corners.{alike, cell_width, first_changed, room_across, row_in};
ghost use Rattle.ps_view.specs.Frames.{blank_frames, texts_of, with_begun, with_last};
ghost use Rattle.ps_view.specs.HarmlessTexts.{harmless_text};
ghost use Rattle.ps_view.specs.Players.{first_player, player_place};

use crate::cells::{alike_characters, cell_width, frame_row};
use crate::corners::Cell;
use crate::frame_rows::FrameRow;
use crate::players::player_in;
use ps_model::Memory;
use std::alloc::Global;
use std::marker::Model;
use std::mem;
use std::rc::Rc;

/// The last whole frame, and the one that has begun. A row that has the same bytes in both is one row. What each
/// drawing asks of the last frame is kept with it: the cell that shows the player, and how many columns a cell covers.
/// So is in how many of its first rows the frame that has begun is like it.
#[derive(Drop)]
pub struct Frames {
    alloc: Global,
    players: Vec<char>,
    last: Vec<Rc<FrameRow, Global>>,
    player: Option<Cell>,
    width: usize,
    begun: Vec<Rc<FrameRow, Global>>,
    alike: usize,
}

impl Model for Frames {
    ghost use Rattle.ps_view.specs.Frames.{AreKept, Frames as KnownFrames, texts_of};

    ghost Value = { KnownFrames };

    ghost view = { λ frames. record {
      players = frames.players.items;
      last = texts_of frames.last.items;
      begun = texts_of frames.begun.items;
    } };

    ghost invariant = { λ frames.
        AreKept frames.players.items frames.last.items frames.player frames.width frames.begun.items frames.alike };
}

impl Frames {
    /// No frame yet of a game in which these characters show the player.
    pub fn new(alloc: Global, players: Vec<char>) -> Frames
        ensures { result ≡ blank_frames players.items }
    {
        Frames {
            alloc,
            players,
            last: Vec::new(alloc),
            player: None,
            width: 1,
            begun: Vec::new(alloc),
            alike: 0,
        }
    }

    /// The rows of the last whole frame.
    pub fn last(&self) -> &[Rc<FrameRow, Global>]
        ensures { texts_of result.now ≡ self.now.last }
    {
        self.last.as_slice()
    }

    /// The row of the last frame, from 0.
    pub fn last_row(&self, place: usize) -> &[char]
        ensures { result.now ≡ row_in self.now.last place }
    {
        frame_row(&self.last, place)
    }

    /// How many columns each cell of the last frame covers, one at least.
    pub fn cell_width(&self) -> usize
        ensures width { result ≡ cell_width self.now.last }
        ensures some { 0 < result }
    {
        self.width
    }

    /// How many characters of a row of the last frame so many columns have room for.
    pub fn room_across(&self, columns: usize) -> usize
        ensures { result ≡ room_across columns self.now.last }
    {
        columns / self.cell_width()
    }

    /// The first cell of the last frame that shows the player.
    pub fn first_player(&self) -> Option<Cell>
        ensures { result ≡ first_player self.now.players self.now.last }
    {
        self.player
    }

    /// How many rows the frame has that has begun.
    pub fn begun_rows(&self) -> usize
        ensures { result ≡ length self.now.begun }
    {
        self.begun.len()
    }

    /// Adds a row to the frame that has begun, which the last one has at that place too.
    fn add_same(&mut self, row: Rc<FrameRow, Global>) -> Result<(), Memory>
        requires place { length self.old.begun < length self.old.last }
        requires same { row.value.text ≡ row_in self.old.last (length self.old.begun) }
        requires player { row.value.player ≡ player_place self.old.players row.value.text }
        ensures { OnOk result (self.new ≡ with_begun self.old (self.old.begun ++ row.value.text ∷ [])) }
    {
        let place = self.begun.len();
        self.begun.push(row)?;
        if self.alike == place {
            self.alike = self.begun.len();
        }
        Ok(())
    }

    /// In how many of their first rows the frame that has begun is like the last one, with that row added.
    fn alike_with(&self, row: &FrameRow) -> usize
        ensures { result ≡ alike bytes_eq self.now.last (self.now.begun ++ row.now.text ∷ []) }
    {
        if self.alike < self.begun.len() {
            return self.alike;
        }
        if self.last.len() <= self.alike {
            return self.alike;
        }
        if self.last[self.alike].is_like(row) {
            return self.alike + 1;
        }
        self.alike
    }

    /// Adds a row to the frame that has begun.
    fn add_other(&mut self, row: FrameRow) -> Result<(), Memory>
        requires { row.player ≡ player_place self.old.players row.text }
        ensures { OnOk result (self.new ≡ with_begun self.old (self.old.begun ++ row.text ∷ [])) }
    {
        let alike = self.alike_with(&row);
        let row = Rc::new(self.alloc, row)?;
        self.begun.push(row)?;
        self.alike = alike;
        Ok(())
    }

    /// Adds the row of a line to the frame that has begun: that of the last frame at that place, where it is the same.
    ///
    /// # Errors
    ///
    /// `Memory`.
    pub fn add_row(&mut self, line: &[u8]) -> Result<(), Memory>
        ensures { OnOk result (self.new ≡ with_begun self.old (self.old.begun ++ harmless_text line.now ∷ [])) }
    {
        match self.last.get(self.begun.len()) {
            Some(row) if row.is_of(line) => {
                let same = row.clone()?;
                self.add_same(same)
            }
            _ => {
                let row = FrameRow::new(self.alloc, &self.players, line)?;
                self.add_other(row)
            }
        }
    }

    /// The first cell of the frame that has begun that isn't as in the last one.
    pub fn first_changed(&self) -> Cell
        ensures { result ≡ first_changed self.now.last self.now.begun }
    {
        let row = self.alike;
        let column = alike_characters(frame_row(&self.last, row), frame_row(&self.begun, row));
        Cell { row, column }
    }

    /// Has the frame that has begun in place of the last one.
    pub fn end(&mut self)
        ensures { self.new ≡ with_begun (with_last self.old self.old.begun) [] }
    {
        mem::swap(&mut self.last, &mut self.begun);
        self.begun.clear();
        self.alike = 0;
        self.player = player_in(&self.players, &self.last);
        self.width = cell_width(&self.last);
    }

    /// Forgets the last frame.
    pub fn forget(&mut self)
        ensures { self.new ≡ with_last self.old [] }
    {
        self.last.clear();
        self.player = None;
        self.width = 1;
        self.alike = 0;
    }
}
