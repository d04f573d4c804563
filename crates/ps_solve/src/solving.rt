//! Levels of a game that are solved.

ghost use Rattle.std.specs.Prelude.{◌≡◌, ℕ, Err, false, List, Some, slice_get};
ghost use Rattle.ps_laws.specs.Fronts.{session_after};
ghost use Rattle.ps_model.specs.board.Turns.{Script, script_at};
ghost use Rattle.ps_model.specs.game.Games.{game as game_in};
ghost use Rattle.ps_model.specs.game.LevelRuns.{is_level_found};
ghost use Rattle.ps_model.specs.game.Outputs.{opening_step};
ghost use Rattle.ps_model.specs.session.RoomSizes.{HasRoomSize};
ghost use Rattle.ps_model.specs.session.Sessions.{Session};
ghost use Rattle.ps_run.specs.GamesInPlay.{script_in};
ghost use Rattle.ps_stage.specs.Playable.{ArePlayable};
ghost use Rattle.ps_solve.specs.SolvedLevels.{IsSolvedAfter, IsSolvedAt, IsSolvedHere};
ghost use Rattle.ps_solve.specs.declared.solved.NotSearched.TheVariants as NotSearched;

use crate::played::play_keys;
use crate::solved::{NotSearched, SolvedHere};
use crate::widths::{RuleSections, solve_session};
use ps_answers::Solved;
use ps_compile::compile;
use ps_game::Game;
use ps_model::Key;
use ps_run::{GamePlay, GameScript, SizedPlay, parts_of_game};
use ps_search::Watcher;
use std::alloc::Global;

/// Keys that are played in a run that is begun at an entry.
#[derive(Clone, Copy)]
pub struct KeysPlayed<'k> {
    /// The place of the entry at which the run begins.
    pub entry: usize,
    pub keys: &'k [Key],
}

/// Whether the level where a game in play is can be won from there; nothing where it is in no level.
fn solve_play<T: Watcher>(
    alloc: Global,
    play: &GamePlay<'_>,
    limit: u32,
    watcher: &mut T,
) -> Option<SolvedHere>
    ensures { IsSolvedHere (script_in play.now) play.now.session limit result }
{
    let (plain, late) = play.sections();
    let sections = RuleSections { plain, late };
    match play.sized() {
        SizedPlay::One(row) => solve_session(alloc, row.session(), sections, limit, watcher),
        SizedPlay::Two(row) => solve_session(alloc, row.session(), sections, limit, watcher),
        SizedPlay::Three(row) => solve_session(alloc, row.session(), sections, limit, watcher),
        SizedPlay::Four(row) => solve_session(alloc, row.session(), sections, limit, watcher),
    }
}

/// What is found where a level is searched; or that there is none.
fn searched(found: Option<SolvedHere>) -> Result<SolvedHere, NotSearched>
    ensures { (script : Script) (session : Session) (limit : ℕ) → IsSolvedHere script session limit found
        → IsSolvedAfter script session limit result }
{
    match found {
        Some(here) => Ok(here),
        None => Err(NotSearched::NoLevel),
    }
}

/// Whether a level can be won from where keys lead, and by how few directions and `x`: the level in which the player
/// is after these keys. At most `limit` states are kept.
///
/// What is told is true of the game as its text means it. Out of memory or stopped by the watcher, the answer says up
/// to which length no list of inputs wins.
///
/// # Errors
///
/// `NoLevel`, where the keys lead to a message entry or to the end of the game; `Memory`, where memory runs out before
/// the search begins.
pub fn solve_after<T: Watcher>(
    alloc: Global,
    game: &Game,
    played: KeysPlayed<'_>,
    limit: u32,
    watcher: &mut T,
) -> Result<SolvedHere, NotSearched>
    requires playable { ArePlayable game.now.names game.now.entries }
    requires rooms { HasRoomSize game.now.options }
    ensures { (text : List ℕ) → game_in text ≡ Some game.now → let script = script_at game.now played.entry.entry in
        IsSolvedAfter script (session_after script (opening_step script).session played.entry.keys.now) limit result }
{
    let compiled = match compile(alloc, &game.names, &game.rules) {
        Ok(compiled) => compiled,
        Err(_) => return Err(NotSearched::Memory),
    };
    let script = GameScript::new(parts_of_game(game, played.entry), &compiled);
    let Ok(play) = play_keys(alloc, script, played.keys) else {
        return Err(NotSearched::Memory);
    };
    let found = solve_play(alloc, &play, limit, watcher);
    play.end();
    searched(found)
}

/// Whether the level of an entry can be won from its start, and by how few directions and `x`. At most `limit` states
/// are kept.
///
/// What is told is true of the game as its text means it, of a run that begins at that entry. Out of memory or stopped
/// by the watcher, the answer says up to which length no list of inputs wins.
///
/// # Errors
///
/// `NoLevel`, where the entry is a message, or there is no such entry; `Memory`, where memory runs out before the
/// search begins.
pub fn solve_level<T: Watcher>(
    alloc: Global,
    game: &Game,
    entry: usize,
    limit: u32,
    watcher: &mut T,
) -> Result<Solved, NotSearched>
    requires playable { ArePlayable game.now.names game.now.entries }
    requires rooms { HasRoomSize game.now.options }
    ensures solved { (text : List ℕ) → game_in text ≡ Some game.now → let script = script_at game.now entry in
        IsSolvedAt script entry (opening_step script).session limit result }
    ensures no_level { (text : List ℕ) → game_in text ≡ Some game.now → result ≡ Err NotSearched.NoLevel
        → is_level_found (slice_get game.now.entries entry) ≡ false }
{
    let played = KeysPlayed { entry, keys: &[] };
    match solve_after(alloc, game, played, limit, watcher) {
        Ok(here) => {
            if here.entry != entry {
                return Err(NotSearched::NoLevel);
            }
            Ok(here.solved)
        }
        Err(fault) => Err(fault),
    }
}
