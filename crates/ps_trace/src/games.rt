//! A game in play whose rules tell what they do.

ghost use Rattle.std.specs.Prelude.{◌≡◌, ◌≤◌, true};
ghost use Rattle.ps_board.specs.declared.one_word.TheConstants.{WORD_BITS};
ghost use Rattle.ps_model.specs.declared.limits.TheConstants.{SIDE_LIMIT};
ghost use Rattle.ps_model.specs.session.RoomSizes.{HasRoomSize};
ghost use Rattle.ps_stage.specs.Playable.{ArePlayable, EntriesFit};
ghost use Rattle.ps_stage.specs.Sides.{side_at};

use crate::rules::TracedRules;
use crate::told::ToldRun;
use ps_board::{ColumnWords, WORD_BITS};
use ps_game::Game;
use ps_model::{Key, Memory};
use ps_origins::PlacedProgram;
use ps_rulebook::{GameRules, RowBoard, RowHistory};
use ps_screen::OutputText;
use ps_session::{BoardSides, Phase, Session, SessionGame};
use ps_turn::TurnRules;
use std::alloc::Global;

/// Rules that tell, and have the ordinary ones play.
type ToldRules<'g, V> = TracedRules<'g, RowBoard<V>, GameRules<'g, RowBoard<V>>>;

/// Rules that tell, and play a program.
fn rules_of<'g, V: ColumnWords>(
    alloc: Global,
    program: PlacedProgram<'g>,
) -> Result<ToldRules<'g, V>, Memory> {
    let rules = GameRules::try_new(alloc, program.sections)?;
    TracedRules::try_new(alloc, program, rules)
}

/// What a session plays of a game that is begun at an entry.
pub fn parts_of(game: &Game, entry: usize) -> SessionGame<'_>
    requires playable { ArePlayable game.now.names game.now.entries }
    requires rooms { HasRoomSize game.now.options }
    ensures { EntriesFit SIDE_LIMIT result.entries }
{
    SessionGame::new(
        game.title.as_str(),
        game.options,
        &game.names,
        &game.entries,
        &game.wins,
    )
    .begun_at(entry)
}

/// Whether a word has room for a row of each level.
pub fn are_narrow(parts: &SessionGame<'_>) -> bool
    ensures { result ≡ true → side_at parts.now.entries parts.now.first_entry ≤ WORD_BITS }
{
    for place in 0..parts.entries().len() {
        if WORD_BITS < parts.side_at(place) {
            return false;
        }
    }
    parts.side_at(parts.first_entry()) <= WORD_BITS
}

/// A game in play whose rules tell what they do, on boards whose rows are kept by words of this kind.
pub struct TracedGame<'g, V: ColumnWords> {
    session: Session<'g, RowBoard<V>, RowHistory<V>>,
    rules: TurnRules<ToldRules<'g, V>>,
}

/// Written out, so that a function that owns a game in play calls this where it returns.
impl<'g, V: ColumnWords> Drop for TracedGame<'g, V> {
    fn drop(self) {
        let TracedGame {
            session: _session,
            rules: _rules,
        } = self;
    }
}

impl<'g, V: ColumnWords> TracedGame<'g, V> {
    /// Starts a game by these programs, on boards with room for every level, whose sides are at most `most`. What it
    /// writes there is forgotten.
    ///
    /// # Errors
    ///
    /// `Memory`.
    pub fn start(
        alloc: Global,
        parts: SessionGame<'g>,
        most: u32,
        plain: PlacedProgram<'g>,
        late: PlacedProgram<'g>,
    ) -> Result<TracedGame<'g, V>, Memory>
        requires sides { most ≤ V.limit }
        requires room { side_at parts.entries parts.first_entry ≤ V.limit }
    {
        let mut rules = TurnRules {
            plain: rules_of(alloc, plain)?,
            late: rules_of(alloc, late)?,
        };
        let entry = parts.first_entry();
        let parts = parts.on_boards(BoardSides { above: 0, most });
        let mut output = OutputText::new(alloc);
        let session = Session::start_at(alloc, parts, &mut rules, entry, &mut output)?;
        Ok(TracedGame { session, rules })
    }

    /// Does what a key does. What it writes is put into the output, and what rules have told before is forgotten.
    ///
    /// # Errors
    ///
    /// `Memory`. So is a level for which the boards have no room, where there was to be none.
    pub fn key(&mut self, key: Key, output: &mut OutputText) -> Result<(), Memory> {
        self.rules.plain.forget();
        self.rules.late.forget();
        match self.session.key(&mut self.rules, key, output) {
            Ok(_) => Ok(()),
            Err(_) => Err(Memory),
        }
    }

    /// Whether the first turn of a key would be the key's own: the player is in a level, and the key is for the rules.
    pub fn takes(&self, key: Key) -> bool {
        matches!(self.session.phase(), Phase::Playing) && matches!(key, Key::Move(_))
    }

    /// What the runs of rules have told since the last key: those of the rules, and those of the late rules.
    pub fn told(&self) -> (&[ToldRun<RowBoard<V>>], &[ToldRun<RowBoard<V>>]) {
        (self.rules.plain.runs(), self.rules.late.runs())
    }
}
