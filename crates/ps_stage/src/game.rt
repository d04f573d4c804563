//! A game as a session plays it.

ghost use Rattle.std.specs.Prelude.{◌≡◌, ◌≤◌};
ghost use Rattle.ps_levels.specs.EntriesShown.{entries_shown};
ghost use Rattle.ps_levels.specs.WinsShown.{wins_shown};
ghost use Rattle.ps_model.specs.declared.limits.TheConstants.{SIDE_LIMIT};
ghost use Rattle.ps_model.specs.session.RoomSizes.{HasRoomSize};
ghost use Rattle.ps_model.specs.session.Rooms.{room_after};
ghost use Rattle.ps_stage.specs.OwnBoards.{has_boards};
ghost use Rattle.ps_stage.specs.Playable.{ArePlayable, EntriesFit};
ghost use Rattle.ps_stage.specs.Sides.{side_at};
ghost use Rattle.ps_stage.specs.Standings.{all_sides, begun_at, on_boards, turn_parts};

use crate::sides::{BoardSides, side_at};
use ps_board::Board;
use ps_levels::{Entry, Win};
use ps_model::{Options, Room};
use ps_names::Names;
use ps_screen::room_of;
use ps_turn::TurnGame;
use std::marker::Model;

/// A game without its rules: its title, options, names, entries and win conditions, the entry at which it begins, and
/// which levels its boards are for.
#[derive(Drop)]
pub struct SessionGame<'g> {
    title: &'g str,
    options: Options,
    names: &'g Names,
    entries: &'g [Entry],
    first_entry: usize,
    sides: BoardSides,
    turns: TurnGame<'g>,
}

impl<'g> Model for SessionGame<'g> {
    ghost use Rattle.std.specs.Prelude.{◌≡◌};
    ghost use Rattle.ps_levels.specs.EntriesShown.{entries_shown};
    ghost use Rattle.ps_model.specs.session.RoomSizes.{HasRoomSize};
    ghost use Rattle.ps_stage.specs.Playable.{ArePlayable};
    ghost use Rattle.ps_stage.specs.Standings.{SessionParts};

    ghost Value = { SessionParts };

    ghost view = { λ g. record {
      title = g.title.now;
      options = g.options;
      names = g.names.now;
      entries = entries_shown g.entries.now;
      first_entry = g.first_entry;
      wins = g.turns.wins;
      sides = g.sides;
    } };

    ghost invariant = { λ g. ArePlayable g.names.now (entries_shown g.entries.now)
        × ((g.turns.names ≡ g.names.now) × ((g.turns.options ≡ g.options) × HasRoomSize g.options)) };
}

impl<'g> SessionGame<'g> {
    /// The game of these parts, from its start, on boards for all levels. The sides of its levels are those of a board, and
    /// so are those of its rooms, if it has rooms.
    pub fn new(
        title: &'g str,
        options: Options,
        names: &'g Names,
        entries: &'g [Entry],
        wins: &'g [Win],
    ) -> SessionGame<'g>
        requires playable { ArePlayable names.now (entries_shown entries.now) }
        requires rooms { HasRoomSize options }
        ensures title { result.title ≡ title.entry.now }
        ensures options { result.options ≡ options }
        ensures names { result.names ≡ names.entry.now }
        ensures entries { result.entries ≡ entries_shown entries.entry.now }
        ensures first { result.first_entry ≡ 0 }
        ensures wins { result.wins ≡ wins_shown wins.entry.now }
        ensures sides { result.sides ≡ all_sides }
        ensures fit { EntriesFit SIDE_LIMIT result.entries }
    {
        SessionGame {
            title,
            options,
            names,
            entries,
            first_entry: 0,
            sides: BoardSides::all(),
            turns: TurnGame::new(names, options, wins),
        }
    }

    /// The same game, begun at an entry.
    pub fn begun_at(self, entry: usize) -> SessionGame<'g>
        ensures { result ≡ begun_at self.entry entry }
    {
        SessionGame {
            title: self.title,
            options: self.options,
            names: self.names,
            entries: self.entries,
            first_entry: entry,
            sides: self.sides,
            turns: self.turns.copied(),
        }
    }

    /// The same game, on boards for levels with such sides.
    pub fn on_boards(self, sides: BoardSides) -> SessionGame<'g>
        ensures { result ≡ on_boards self.entry sides }
    {
        SessionGame {
            title: self.title,
            options: self.options,
            names: self.names,
            entries: self.entries,
            first_entry: self.first_entry,
            sides,
            turns: self.turns.copied(),
        }
    }

    /// Whether its boards are for an entry: it is no level, or one with such sides.
    pub fn has_boards(&self, entry: usize) -> bool
        ensures { result ≡ has_boards self.now entry }
    {
        self.sides.has(side_at(self.entries, entry))
    }

    /// The entry at which it begins.
    pub fn first_entry(&self) -> usize
        ensures { result ≡ self.now.first_entry }
    {
        self.first_entry
    }

    /// The title.
    pub fn title(&self) -> &str
        ensures { result.now ≡ self.now.title }
    {
        self.title
    }

    /// The options.
    pub fn options(&self) -> Options
        ensures { result ≡ self.now.options }
    {
        self.options
    }

    /// The names.
    pub fn names(&self) -> &'g Names
        ensures names { result.now ≡ self.now.names }
        ensures playable { ArePlayable self.now.names self.now.entries }
    {
        self.names
    }

    /// The same game.
    pub fn copied(&self) -> SessionGame<'g>
        ensures { result ≡ self.now }
    {
        SessionGame {
            title: self.title,
            options: self.options,
            names: self.names,
            entries: self.entries,
            first_entry: self.first_entry,
            sides: self.sides,
            turns: self.turns.copied(),
        }
    }

    /// The longer side of the level at a place among the entries; 0 for a message, and after the last entry.
    pub fn side_at(&self, place: usize) -> u32
        ensures side { result ≡ side_at self.now.entries place }
        ensures low { result ≤ SIDE_LIMIT }
    {
        side_at(self.entries, place)
    }

    /// What its turns look at.
    pub fn turns(&self) -> &TurnGame<'g>
        ensures { result.now ≡ turn_parts self.now }
    {
        &self.turns
    }

    /// The room that the next frame of a board shows, where the last one showed a room. No memory is taken.
    pub fn room_after<B: Board>(&self, board: &B, last: Room) -> Room
        ensures { result ≡ room_after self.now.options.flickscreen self.now.names (B.grid board.now) last }
    {
        match self.options.flickscreen {
            Some(size) => room_of(&self.turns, board, size, last),
            None => last,
        }
    }

    /// The entries.
    pub fn entries(&self) -> &'g [Entry]
        ensures entries { entries_shown result.now ≡ self.now.entries }
        ensures playable { ArePlayable self.now.names self.now.entries }
    {
        self.entries
    }
}
