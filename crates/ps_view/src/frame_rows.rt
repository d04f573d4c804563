//! A row of a frame.

ghost use Rattle.std.specs.Prelude.{◌≡◌, IfOk};
ghost use Rattle.std.specs.Str.{bytes_eq};
ghost use Rattle.ps_view.specs.Corners.{widest};
ghost use Rattle.ps_view.specs.HarmlessTexts.{harmless_text};
ghost use Rattle.ps_view.specs.Players.{player_place};

use crate::cells::widest;
use crate::harmless_texts::harmless_text;
use crate::players::player_place;
use crate::texts::Text;
use ps_model::Memory;
use std::alloc::Global;

/// A row of a frame: the bytes of its line, what a terminal is shown of them, and what every frame asks of that.
#[derive(Drop)]
pub struct FrameRow {
    line: Vec<u8>,
    text: Text,
    columns: usize,
    player: Option<usize>,
    ghost decoded: { text ≡ harmless_text line.items },
    ghost measured: { columns ≡ widest 1 text },
}

impl FrameRow {
    /// The row of a line.
    ///
    /// # Errors
    ///
    /// `Memory`.
    pub fn new(alloc: Global, players: &[char], line: &[u8]) -> Result<FrameRow, Memory>
        ensures text { IfOk result (λ row. row.text ≡ harmless_text line.now) }
        ensures player { IfOk result (λ row. row.player ≡ player_place players.now row.text) }
    {
        let text = harmless_text(alloc, line)?;
        let columns = widest(1, text.characters());
        let player = player_place(players, text.characters());
        let line = Vec::from_slice(alloc, line)?;
        Ok(FrameRow {
            line,
            text,
            columns,
            player,
        })
    }

    /// Whether it is the row of that line.
    pub fn is_of(&self, line: &[u8]) -> bool
        ensures { result ≡ bytes_eq self.now.line.items line.now }
    {
        self.line.as_slice() == line
    }

    /// Whether it shows the same as another row.
    pub fn is_like(&self, other: &FrameRow) -> bool
        ensures { result ≡ bytes_eq self.now.text other.now.text }
    {
        self.is_of(&other.line) || self.text.characters() == other.text.characters()
    }

    /// What a terminal is shown of it.
    pub fn characters(&self) -> &[char]
        ensures { result.now ≡ self.now.text }
    {
        self.text.characters()
    }

    /// How many columns its widest character covers, one at least.
    pub fn columns(&self) -> usize
        ensures { result ≡ widest 1 self.now.text }
    {
        self.columns
    }

    /// The first place whose character shows the player.
    pub fn player(&self) -> Option<usize>
        ensures { result ≡ self.now.player }
    {
        self.player
    }
}
