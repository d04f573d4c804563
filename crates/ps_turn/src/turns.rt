//! A turn.

ghost use Rattle.std.specs.Prelude.{◌≡◌, IfOk, OnOk, OnErr, [], false, not};
ghost use Rattle.ps_model.specs.board.Inputs.{with_input, motion_of};
ghost use Rattle.ps_model.specs.names.Names.{players};
ghost use Rattle.ps_model.specs.board.Turns.{turn, outcome_of, played, prepared, is_held, done_with, same_cells};
ghost use Rattle.ps_levels.specs.WinsShown.{wins_shown};
ghost use Rattle.ps_turn.specs.States.{HaveSameSides, queue_shown, state_of, script_with, done_shown, outcome_shown};
ghost use Rattle.ps_turn.specs.States.{is_done};
ghost use Rattle.ps_laws.specs.CancelledRuns.{HasRun};

use crate::extents::{extent_of, is_decided};
use crate::inputs::{give_motion, motion_for};
use crate::outcomes::{DoneTurn, Turned};
use crate::players::stayed;
use crate::queue::Queue;
use crate::rules::{Rules, TurnRules};
use crate::winning::is_won;
use ps_board::Board;
use ps_levels::Win;
use ps_model::{Extent, Input, Memory, ObjectId, Options};
use ps_move::slide;
use ps_names::Names;
use ps_text::Text;
use std::marker::Model;

/// What of a game its turns look at, made ready once.
#[derive(Drop)]
pub struct TurnGame<'g> {
    names: &'g Names,
    options: Options,
    wins: &'g [Win],
    players: &'g [ObjectId],
}

impl<'g> Model for TurnGame<'g> {
    ghost use Rattle.std.specs.Prelude.{◌≡◌};
    ghost use Rattle.ps_model.specs.names.Names.{players as player_objects};
    ghost use Rattle.ps_levels.specs.WinsShown.{wins_shown};
    ghost use Rattle.ps_turn.specs.States.{TurnParts};

    ghost Value = { TurnParts };

    ghost view = { λ g. record { names = g.names.now; options = g.options; wins = wins_shown g.wins.now } };

    ghost invariant = { λ g. g.players.now ≡ player_objects g.names.now };
}

impl<'g> TurnGame<'g> {
    /// The same game.
    pub fn copied(&self) -> TurnGame<'g>
        ensures { result ≡ self.now }
    {
        TurnGame {
            names: self.names,
            options: self.options,
            wins: self.wins,
            players: self.players,
        }
    }

    /// The parts of a game.
    pub fn new(names: &'g Names, options: Options, wins: &'g [Win]) -> TurnGame<'g>
        ensures names { result.names ≡ names.entry.now }
        ensures options { result.options ≡ options }
        ensures wins { result.wins ≡ wins_shown wins.entry.now }
    {
        TurnGame {
            names,
            options,
            wins,
            players: names.players(),
        }
    }

    /// Whether a key's turn is taken back where each cell that had a Player still has one.
    pub(crate) fn requires_movement(&self) -> bool
        ensures { result ≡ self.now.options.require_player_movement }
    {
        self.options.require_player_movement
    }

    /// The objects of Player.
    pub(crate) fn players(&self) -> &[ObjectId]
        ensures { result.now ≡ players self.now.names }
    {
        self.players
    }
}

/// Makes a board ready for the rules of a turn: all objects at rest, and then, with an input, every object of Player
/// with its motion.
fn prepare<B: Board>(game: &TurnGame<'_>, input: Option<Input>, board: &mut B)
    ensures prepared { B.grid board.new ≡ prepared game.now.names input (B.grid board.old) }
    ensures table { B.table board.new ≡ B.table board.old }
    ensures origin { B.origin board.new ≡ B.origin board.old }
{
    match input {
        None => board.clear_moves(),
        Some(input) => give_motion(board, game.players(), motion_for(input)),
    }
}

/// Makes the changes of a turn on a board, and tells what the rules have queued. Where the rules may end at `cancel`,
/// it makes none after it.
///
/// # Errors
///
/// `Memory`, and a part of the changes may have been made.
fn play<B: Board, R: Rules<B>>(
    game: &TurnGame<'_>,
    rules: &mut TurnRules<R>,
    input: Option<Input>,
    board: &mut B,
    extent: Extent,
) -> Result<Queue, Memory>
    ensures played { IfOk result (λ queue. HasRun extent (played (script_with game.now (R.meant rules.old.plain
        (B.table board.old)) (R.meant rules.old.late (B.table board.old))) input (B.grid board.old))
        (state_of (B.grid board.new) (queue_shown queue))) }
    ensures plain { R.meant rules.new.plain ≡ R.meant rules.old.plain }
    ensures late { R.meant rules.new.late ≡ R.meant rules.old.late }
    ensures sides { HaveSameSides (B.grid board.new) (B.grid board.old) }
    ensures table { B.table board.new ≡ B.table board.old }
    ensures origin { B.origin board.new ≡ B.origin board.old }
{
    let mut queue = Queue::new();
    prepare(game, input, board);
    rules.plain.run(board, &mut queue, extent)?;
    if is_decided(extent, &queue) {
        return Ok(queue);
    }
    let _ = slide(board);
    rules.late.run(board, &mut queue, extent)?;
    Ok(queue)
}

/// Whether the game asks for a move of the Player, and each cell that had one still has one.
fn is_held<B: Board>(game: &TurnGame<'_>, input: Option<Input>, before: &B, after: &B) -> bool
    requires { HaveSameSides (B.grid after.now) (B.grid before.now) }
    ensures { result ≡ is_held (script_with game.now [] []) input (B.grid before.now) (B.grid after.now) }
{
    input.is_some() && game.options.require_player_movement && stayed(game, before, after)
}

/// The message of a queue.
fn message_of(queue: Queue) -> Option<Text>
    ensures { result ≡ queue.message }
{
    queue.message
}

/// A done turn, by the boards before and after it. Whether it changed something is told by the rows that it touched:
/// what the board before shows is the origin of the one after.
fn done<B: Board>(game: &TurnGame<'_>, before: &B, after: &B, queue: Queue) -> DoneTurn
    requires sides { HaveSameSides (B.grid after.now) (B.grid before.now) }
    requires table { B.table after.now ≡ B.table before.now }
    requires origin { B.origin after.now ≡ B.grid before.now }
    ensures { done_shown result (B.grid after.now)
        ≡ done_with (script_with game.now [] []) (state_of (B.grid after.now) (queue_shown queue)) (not (same_cells
        (B.grid before.now).cells (B.grid after.now).cells)) }
{
    let changed = !before.same_on(after, &after.rows_touched());
    DoneTurn {
        changed,
        checkpoint: queue.checkpoint,
        win: queue.win || is_won(game.wins, after),
        again: queue.again && changed,
        message: queue.message,
    }
}

/// Makes the board after the changes of a turn show again what the one before shows, which is its origin. Only the rows
/// that were touched need be copied, once all is at rest.
fn take_back<B: Board>(before: &B, after: &mut B)
    requires sides { HaveSameSides (B.grid after.old) (B.grid before.now) }
    requires table { B.table after.old ≡ B.table before.now }
    requires origin { B.origin after.old ≡ B.grid before.now }
    ensures grid { B.grid after.new ≡ B.grid before.now }
    ensures table { B.table after.new ≡ B.table before.now }
    ensures origin { B.origin after.new ≡ B.grid before.now }
{
    after.clear_moves();
    let rows = after.rows_touched();
    before.copy_rows(after, &rows);
}

/// What comes of a turn, by the boards before and after its changes: blocked, where the game asks for a move of the
/// Player and each cell that had one still has one; blocked by `cancel`; restarted by `restart`; or done. Where it
/// isn't done the second board is made equal to the first. What the first shows is the origin of the second, and stays
/// so.
fn outcome<B: Board>(
    game: &TurnGame<'_>,
    input: Option<Input>,
    before: &B,
    after: &mut B,
    queue: Queue,
) -> Turned
    requires sides { HaveSameSides (B.grid after.old) (B.grid before.now) }
    requires table { B.table after.old ≡ B.table before.now }
    requires origin { B.origin after.old ≡ B.grid before.now }
    ensures outcome { outcome_shown result (B.grid after.new)
        ≡ outcome_of (script_with game.now [] []) input (B.grid before.now) (state_of (B.grid after.old)
        (queue_shown queue)) }
    ensures undone { is_done result ≡ false → B.grid after.new ≡ B.grid before.now }
    ensures sides { HaveSameSides (B.grid after.new) (B.grid before.now) }
    ensures table { B.table after.new ≡ B.table before.now }
    ensures origin { B.origin after.new ≡ B.grid before.now }
{
    if is_held(game, input, before, after) {
        take_back(before, after);
        return Turned::Blocked(None);
    }
    if queue.cancel {
        take_back(before, after);
        return Turned::Blocked(message_of(queue));
    }
    if queue.restart {
        take_back(before, after);
        return Turned::Restarted(message_of(queue));
    }
    Turned::Done(done(game, before, after, queue))
}

/// Takes a turn with an input, or without one. It works on a second board, equal to the first. That shows the new board
/// after a done turn, and is equal to the first again after any other. What the first shows is the origin of the
/// second, and stays so.
///
/// # Errors
///
/// `Memory`: the first board stands, and the second is equal to it again.
pub fn turn<B: Board, R: Rules<B>>(
    game: &TurnGame<'_>,
    rules: &mut TurnRules<R>,
    input: Option<Input>,
    before: &B,
    after: &mut B,
) -> Result<Turned, Memory>
    requires equal { B.grid after.old ≡ B.grid before.now }
    requires table { B.table after.old ≡ B.table before.now }
    requires origin { B.origin after.old ≡ B.grid before.now }
    ensures outcome { IfOk result (λ turned. outcome_shown turned (B.grid after.new)
        ≡ turn (script_with game.now (R.meant rules.old.plain (B.table before.now)) (R.meant rules.old.late
        (B.table before.now))) input (B.grid before.now)) }
    ensures undone { IfOk result (λ turned. is_done turned ≡ false → B.grid after.new ≡ B.grid before.now) }
    ensures stands { OnErr result (B.grid after.new ≡ B.grid before.now) }
    ensures sides { HaveSameSides (B.grid after.new) (B.grid before.now) }
    ensures table { B.table after.new ≡ B.table before.now }
    ensures origin { B.origin after.new ≡ B.grid before.now }
    ensures plain { R.meant rules.new.plain ≡ R.meant rules.old.plain }
    ensures late { R.meant rules.new.late ≡ R.meant rules.old.late }
{
    let extent = extent_of(game, input);
    match play(game, rules, input, after, extent) {
        Ok(queue) => Ok(outcome(game, input, before, after, queue)),
        Err(Memory) => {
            before.copy_into(after);
            Err(Memory)
        }
    }
}
