//! A view in the making: the bytes of an output, one after the other.

ghost use Rattle.std.specs.Prelude.{◌≡◌, ◌++◌, [], ◌∷◌, List, ℕ, IfOk, OnOk, false, true, ◌==◌, ◌&&◌};
ghost use Rattle.ps_view.specs.LineKinds.{kind_of};
ghost use Rattle.ps_view.specs.LineFeeds.{EndsNoLine};
ghost use Rattle.ps_view.specs.ToldGames.{known_of};
ghost use Rattle.ps_view.specs.Views.{anew, blank_view, corner_drawn, corner_in, drawn, handed_on, is_size, left};
ghost use Rattle.ps_view.specs.Views.{line_told, piece_step, size_step, text_of, told_step, view_behind, with_bytes};
ghost use Rattle.ps_view.specs.Views.{screen_drawn, with_row, with_size};
ghost use Rattle.ps_view.specs.declared.line_kinds.LineKind.TheVariants.{Title, Level, Message, Note, Question};
ghost use Rattle.ps_view.specs.declared.line_kinds.LineKind.TheVariants.{Ending, Empty, Row};

use crate::changes::{add_changes, add_closing, add_opening};
use crate::corners::{Cell, Corner, changed_behind, corner_following};
use crate::frames::Frames;
use crate::line_kinds::{LineKind, kind_of};
use crate::lines::{Line, first_line};
use crate::row_shares::frame_rows;
use crate::screens::screen_of;
use crate::sizes::Size;
use crate::texts::Text;
use crate::told_lines::ToldLines;
use crate::viewed_games::ViewedGame;
use ps_model::Memory;
use std::alloc::Global;
use std::marker::Model;
use std::mem;

/// What stands behind a message until it is gone past: the key that goes past it.
const GO_ON: &[u8] = b" [x]";

/// The upper left corner of a frame.
const FIRST_CORNER: Corner = Corner { top: 0, left: 0 };

/// Its first cell.
const FIRST_CELL: Cell = Cell { row: 0, column: 0 };

/// The text of a line, without the two bytes that say what it is.
fn text_of(line: &[u8]) -> &[u8]
    ensures { result.now ≡ text_of line.now }
{
    match line {
        [_, _, text @ ..] => text,
        _ => &[],
    }
}

/// A view of an output as far as its bytes have come.
#[derive(Drop)]
pub struct TerminalView {
    alloc: Global,
    size: Size,
    told: ToldLines,
    frames: Frames,
    corner: Corner,
    changed: Cell,
    line: Line,
    screen: Vec<Text>,
    is_open: bool,
    is_over: bool,
}

impl Model for TerminalView {
    ghost use Rattle.ps_view.specs.Views.{View};

    ghost Value = { View };

    ghost view = { λ view. record {
      game = record { players = view.frames.players; heard = view.told.heard };
      size = view.size;
      told = view.told;
      frame = view.frames.last;
      corner = view.corner;
      changed = view.changed;
      begun = view.frames.begun;
      line = view.line;
      screen = view.screen.items;
      is_open = view.is_open;
      is_over = view.is_over;
    } };
}

impl TerminalView {
    /// A view of a game before the first byte.
    pub fn new(alloc: Global, game: ViewedGame, size: Size) -> TerminalView
        ensures { result ≡ blank_view (known_of game) size }
    {
        let heard = game.heard;
        TerminalView {
            alloc,
            size,
            told: ToldLines::new(alloc, heard),
            frames: Frames::new(alloc, game.players),
            corner: FIRST_CORNER,
            changed: FIRST_CELL,
            line: Line::new(alloc),
            screen: Vec::new(alloc),
            is_open: false,
            is_over: false,
        }
    }

    /// Takes the size of the terminal, if it is told, and adds what the terminal is handed for it: where it is another
    /// one than before, all that was drawn is drawn anew.
    ///
    /// # Errors
    ///
    /// `Memory`, and the view is of no use any more; some of what is handed on may have been added.
    fn take_size(&mut self, told: Option<Size>, orders: &mut Line) -> Result<(), Memory>
        ensures view { OnOk result (self.new ≡ (told_step self.old told).view) }
        ensures added { OnOk result (orders.new ≡ orders.old ++ (told_step self.old told).bytes) }
    {
        match told {
            None => Ok(()),
            Some(size) => self.resize(size, orders),
        }
    }

    /// Whether the size is that.
    fn has_size(&self, size: Size) -> bool
        ensures { result ≡ is_size self.now.size size }
    {
        self.size.rows() == size.rows() && self.size.columns() == size.columns()
    }

    /// Where the part of the last frame is in a terminal of that size.
    fn corner_in(&self, size: Size) -> Corner
        ensures { result ≡ corner_in self.now size self.now.frame self.now.changed }
    {
        corner_following(
            &self.frames,
            frame_rows(size),
            size.columns(),
            self.corner,
            self.changed,
        )
    }

    /// Takes another size, of which nothing is drawn yet.
    fn set_size(&mut self, size: Size)
        ensures { self.new ≡ with_size self.old size }
    {
        self.corner = self.corner_in(size);
        self.size = size;
        self.screen.clear();
        self.is_open = false;
    }

    /// Takes another size, and draws all.
    fn draw_in(&mut self, size: Size, orders: &mut Line) -> Result<(), Memory>
        ensures view { OnOk result (self.new ≡ (drawn (with_size self.old size)).view) }
        ensures added { OnOk result (orders.new ≡ orders.old ++ (drawn (with_size self.old size)).bytes) }
    {
        self.set_size(size);
        self.draw(orders)
    }

    /// Takes another size, and draws all anew that was drawn.
    fn draw_anew(&mut self, size: Size, orders: &mut Line) -> Result<(), Memory>
        ensures view { OnOk result (self.new ≡ (anew self.old size).view) }
        ensures added { OnOk result (orders.new ≡ orders.old ++ (anew self.old size).bytes) }
    {
        if self.is_open {
            return self.draw_in(size, orders);
        }
        self.set_size(size);
        Ok(())
    }

    /// Draws all anew where the size is another one than before.
    fn resize(&mut self, size: Size, orders: &mut Line) -> Result<(), Memory>
        ensures view { OnOk result (self.new ≡ (size_step self.old size).view) }
        ensures added { OnOk result (orders.new ≡ orders.old ++ (size_step self.old size).bytes) }
    {
        if self.has_size(size) || self.is_over {
            return Ok(());
        }
        self.draw_anew(size, orders)
    }

    /// Takes a size, if one is told, and bytes of the output, and adds what the terminal is handed for both.
    ///
    /// # Errors
    ///
    /// `Memory`, and the view is of no use any more; some of what is handed on may have been added.
    pub fn take_piece(
        &mut self,
        told: Option<Size>,
        bytes: &[u8],
        orders: &mut Line,
    ) -> Result<(), Memory>
        ensures view { OnOk result (self.new ≡ (piece_step self.old told bytes.now).view) }
        ensures added { OnOk result (orders.new ≡ orders.old ++ (piece_step self.old told bytes.now).bytes) }
    {
        self.take_size(told, orders)?;
        self.take(bytes, orders)
    }

    /// Takes bytes of the output, and adds what the terminal is handed for them.
    ///
    /// # Errors
    ///
    /// `Memory`, and the view is of no use any more; some of what is handed on may have been added.
    fn take(&mut self, bytes: &[u8], orders: &mut Line) -> Result<(), Memory>
        ensures view { OnOk result (self.new ≡ view_behind self.old bytes.now) }
        ensures added { OnOk result (orders.new ≡ orders.old ++ handed_on self.old bytes.now) }
    {
        let mut rest = bytes;
        while let Some((line, others)) = first_line(rest) {
            self.take_line(line, orders)?;
            rest = others;
        }
        self.take_front(rest)?;
        Ok(())
    }

    /// Takes the last bytes of a line, and the line feed that ends it; behind the ending none is heard.
    fn take_line(&mut self, bytes: &[u8], orders: &mut Line) -> Result<(), Memory>
        requires { EndsNoLine bytes.now }
        ensures view { OnOk result (self.new ≡ view_behind self.old (bytes.now ++ 10 ∷ [])) }
        ensures added { OnOk result (orders.new ≡ orders.old ++ handed_on self.old (bytes.now ++ 10 ∷ [])) }
    {
        if self.is_over {
            return Ok(());
        }
        if self.is_whole_row(bytes) {
            return self.add_whole_row(bytes);
        }
        self.gather(bytes)?;
        self.end_line(orders)
    }

    /// Whether the last bytes of a line are all of it, and it is a row of a frame. Most lines are.
    fn is_whole_row(&self, bytes: &[u8]) -> bool
        ensures whole { result ≡ true → self.now.line ≡ [] }
        ensures row { result ≡ true → kind_of bytes.now ≡ Row }
    {
        self.line.bytes().is_empty() && matches!(kind_of(bytes), LineKind::Row)
    }

    /// Adds a row to the frame that has begun, without gathering its bytes.
    fn add_whole_row(&mut self, row: &[u8]) -> Result<(), Memory>
        requires { self.old.line ≡ [] }
        ensures { OnOk result (self.new ≡ with_row self.old row.now) }
    {
        self.frames.add_row(row)
    }

    /// Gathers bytes of a line.
    fn gather(&mut self, bytes: &[u8]) -> Result<(), Memory>
        ensures { OnOk result (self.new ≡ with_bytes self.old bytes.now) }
    {
        self.line.add(bytes)?;
        Ok(())
    }

    /// Takes bytes of a line that goes on; behind the ending none is heard.
    fn take_front(&mut self, bytes: &[u8]) -> Result<(), Memory>
        requires { EndsNoLine bytes.now }
        ensures { OnOk result (self.new ≡ view_behind self.old bytes.now) }
    {
        if self.is_over {
            return Ok(());
        }
        self.gather(bytes)?;
        Ok(())
    }

    /// Tells the line that has ended.
    fn end_line(&mut self, orders: &mut Line) -> Result<(), Memory>
        ensures view { OnOk result (self.new ≡ (line_told self.old (kind_of self.old.line)).view) }
        ensures added { OnOk result
            (orders.new ≡ orders.old ++ (line_told self.old (kind_of self.old.line)).bytes) }
    {
        match kind_of(self.line.bytes()) {
            LineKind::Title => {
                self.tell_title();
                Ok(())
            }
            LineKind::Level => {
                self.tell_level();
                Ok(())
            }
            LineKind::Message => self.tell_message(orders),
            LineKind::Note => self.tell_note(),
            LineKind::Question => self.tell_question(orders),
            LineKind::LevelDone => {
                self.line.clear();
                Ok(())
            }
            LineKind::Ending => self.tell_ending(orders),
            LineKind::Empty => self.end_frame(orders),
            LineKind::Row => self.add_row(),
        }
    }

    /// Keeps the title.
    fn tell_title(&mut self)
        ensures { self.new ≡ (line_told self.old Title).view }
    {
        self.told.set_title(&mut self.line);
    }

    /// Keeps which level starts, and forgets the last frame.
    fn tell_level(&mut self)
        ensures { self.new ≡ (line_told self.old Level).view }
    {
        self.told.set_level(&mut self.line);
        self.frames.forget();
        self.corner = FIRST_CORNER;
        self.changed = FIRST_CELL;
    }

    /// Tells a message.
    fn tell_message(&mut self, orders: &mut Line) -> Result<(), Memory>
        ensures view { OnOk result (self.new ≡ (line_told self.old Message).view) }
        ensures added { OnOk result (orders.new ≡ orders.old ++ (line_told self.old Message).bytes) }
    {
        self.line.add(GO_ON)?;
        self.told.set_news(&mut self.line);
        self.draw(orders)
    }

    /// Keeps a note on the level.
    fn tell_note(&mut self) -> Result<(), Memory>
        ensures { OnOk result (self.new ≡ (line_told self.old Note).view) }
    {
        self.told.set_note(text_of(self.line.bytes()))?;
        self.line.clear();
        Ok(())
    }

    /// Tells a question; without a text it tells nothing any more.
    fn tell_question(&mut self, orders: &mut Line) -> Result<(), Memory>
        ensures view { OnOk result (self.new ≡ (line_told self.old Question).view) }
        ensures added { OnOk result (orders.new ≡ orders.old ++ (line_told self.old Question).bytes) }
    {
        self.told.tell_last(text_of(self.line.bytes()))?;
        self.line.clear();
        self.draw(orders)
    }

    /// Tells the ending, and leaves the terminal.
    fn tell_ending(&mut self, orders: &mut Line) -> Result<(), Memory>
        ensures view { OnOk result (self.new ≡ (line_told self.old Ending).view) }
        ensures added { OnOk result (orders.new ≡ orders.old ++ (line_told self.old Ending).bytes) }
    {
        self.told.set_news(&mut self.line);
        self.draw_last(orders)
    }

    /// Draws for the last time, and leaves the terminal.
    fn draw_last(&mut self, orders: &mut Line) -> Result<(), Memory>
        ensures view { OnOk result (self.new ≡ (left (drawn self.old)).view) }
        ensures added { OnOk result (orders.new ≡ orders.old ++ (left (drawn self.old)).bytes) }
    {
        self.draw(orders)?;
        add_closing(self.alloc, self.screen.len(), orders)?;
        self.is_over = true;
        Ok(())
    }

    /// Shows the frame that has ended.
    fn end_frame(&mut self, orders: &mut Line) -> Result<(), Memory>
        ensures view { OnOk result (self.new ≡ (line_told self.old Empty).view) }
        ensures added { OnOk result (orders.new ≡ orders.old ++ (line_told self.old Empty).bytes) }
    {
        let changed = self.frames.first_changed();
        self.changed = changed_behind(self.changed, self.frames.begun_rows(), changed);
        self.frames.end();
        self.corner = self.corner_in(self.size);
        self.line.clear();
        self.told.clear_news();
        self.draw(orders)
    }

    /// Adds a row to the frame that has begun.
    fn add_row(&mut self) -> Result<(), Memory>
        ensures { OnOk result (self.new ≡ (line_told self.old Row).view) }
    {
        self.frames.add_row(self.line.bytes())?;
        self.line.clear();
        Ok(())
    }

    /// Where the part of the last frame is where so many rows are left to it.
    fn corner_drawn(&self, rows: usize) -> Corner
        ensures { result ≡ corner_drawn self.now rows }
    {
        corner_following(
            &self.frames,
            rows,
            self.size.columns(),
            self.corner,
            self.changed,
        )
    }

    /// What the rows of the terminal show then.
    fn screen_drawn(&mut self) -> Result<Vec<Text>, Memory>
        ensures screen { IfOk result (λ screen. screen.items ≡ screen_drawn self.old) }
        ensures same { self.new ≡ self.old }
    {
        let below = self.told.rows(self.alloc, self.size)?;
        let corner = self.corner_drawn(self.size.rows().saturating_sub(below.len()));
        screen_of(self.alloc, self.size, corner, &self.frames, below)
    }

    /// Draws the rows that the view changes.
    fn draw(&mut self, orders: &mut Line) -> Result<(), Memory>
        ensures view { OnOk result (self.new ≡ (drawn self.old).view) }
        ensures added { OnOk result (orders.new ≡ orders.old ++ (drawn self.old).bytes) }
    {
        let screen = self.screen_drawn()?;
        add_opening(self.is_open, orders)?;
        add_changes(self.alloc, &self.screen, &screen, orders)?;
        self.screen = screen;
        self.is_open = true;
        Ok(())
    }
}
