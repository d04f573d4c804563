//! The search of a level.

ghost use Rattle.std.specs.Prelude.{◌≡◌, ◌<◌, ◌≤◌, IfOk, Option, length};
ghost use Rattle.ps_model.specs.session.Solving.{Spot};
ghost use Rattle.ps_search.specs.Steps.{IsStep};
ghost use Rattle.ps_trial.specs.SilentStarts.{spot_with};
ghost use Rattle.ps_trial.specs.Told.{pressed_shown, waits_shown};
ghost use Rattle.ps_solve.specs.Searches.{key_parts, played_by, script_of, start_of};
ghost use Rattle.ps_solve.specs.SpotKeys.{IsAt, IsSpotKey, KeepsKeys, spot_at};

use crate::own_boards::OwnBoard;
use crate::spot_keys::{SpotKey, SpotKeys};
use ps_board::ColumnWords;
use ps_model::Input;
use ps_rows::{NotPacked, RowBoard};
use ps_rulebook::GameRules;
use ps_search::{Moves, Step};
use ps_trial::{Pending, Pressed, Trial, TurnRules};
use std::alloc::Global;
use std::marker::Model;

/// A search of a level, from a spot of it, by the turns of a game. It goes from spot to spot, and keeps each as a key
/// of `N` words.
///
/// Its parts are boxed where they are as large as a key or as a set of columns. So the size of a search depends on
/// neither, and whoever owns one can show that it fits in memory.
pub(crate) struct LevelSearch<'g, W: ColumnWords, const N: usize> {
    /// Tries inputs at the spot where the search is.
    trial: Box<Trial<'g, RowBoard<W>>>,
    rules: Box<TurnRules<GameRules<'g, RowBoard<W>>>>,
    keys: SpotKeys<W, N>,
    /// A board of the search's own, on which keys are unpacked. It shows the board of the spot where the search is.
    board: OwnBoard<RowBoard<W>>,
    /// The key of the spot where the search begins.
    start: Box<SpotKey<N>>,
    /// The key of the spot where the search is.
    at: Box<SpotKey<N>>,
}

/// Written out, so that an owner calls this where it returns, instead of dropping the parts.
impl<'g, W: ColumnWords, const N: usize> Drop for LevelSearch<'g, W, N> {
    fn drop(self) {
        let LevelSearch {
            trial: _trial,
            rules: _rules,
            keys: _keys,
            board: _board,
            start: _start,
            at: _at,
        } = self;
    }
}

impl<'g, W: ColumnWords, const N: usize> Model for LevelSearch<'g, W, N> {
    ghost use Rattle.std.specs.Prelude.{◌≤◌};
    ghost use Rattle.ps_solve.specs.Searches.{IsStanding, SearchValue, key_parts};

    ghost Value = { SearchValue };

    ghost view = { λ s. record {
      basis = s.trial.value.basis;
      plain = s.rules.value.plain;
      late = s.rules.value.late;
      keys = s.keys;
      start = key_parts s.start.value.board.words s.start.value.restart s.start.value.waits;
      at = key_parts s.at.value.board.words s.at.value.restart s.at.value.waits;
    } };

    ghost invariant = { λ s. (N ≤ 64) × IsStanding s.keys s.trial.value s.board
        (key_parts s.start.value.board.words s.start.value.restart s.start.value.waits)
        (key_parts s.at.value.board.words s.at.value.restart s.at.value.waits) };
}

/// The step of the input that was tried last at the spot of a key.
///
/// # Errors
///
/// Why the spot to which it led has no key, and each key stands for what it did.
fn step_to<W: ColumnWords, const N: usize>(
    keys: &mut SpotKeys<W, N>,
    at: &SpotKey<N>,
    trial: &Trial<'_, RowBoard<W>>,
    pressed: Pressed,
) -> Result<Step<SpotKey<N>>, NotPacked>
    requires narrow { N ≤ 64 }
    requires at { IsAt keys.old trial.now at.now.board.words at.now.restart }
    ensures led { IfOk result (λ step. (came : Option Spot)
        → came ≡ pressed_shown pressed (spot_with trial.now.here (waits_shown at.now.waits)) trial.now.there
        → IsStep (λ key. IsSpotKey keys.new key.board.words key.restart)
        (λ key. spot_at keys.new key.board.words key.restart key.waits)
        (spot_with trial.now.here (waits_shown at.now.waits)) came step) }
    ensures kept { KeepsKeys keys.old keys.new }
    ensures own { keys.new.packed.table ≡ keys.old.packed.table }
{
    match pressed {
        Pressed::Same => Ok(Step::Same),
        Pressed::Past => Ok(Step::Past),
        Pressed::To(waits) => match keys.pack(at, trial, waits) {
            Ok(key) => Ok(Step::To(key)),
            Err(fault) => Err(fault),
        },
    }
}

impl<'g, W: ColumnWords, const N: usize> LevelSearch<'g, W, N> {
    /// A search from the spot of a trial, where a message waits, or none does. Its keys have `N` words.
    ///
    /// # Errors
    ///
    /// `Full`, where the board that a restart goes back to has no key so short; `Moves`, where it isn't known that
    /// nothing moves on the boards of the spot; or `Memory`.
    pub(crate) fn try_new(
        alloc: Global,
        trial: Trial<'g, RowBoard<W>>,
        rules: TurnRules<GameRules<'g, RowBoard<W>>>,
        waits: Option<Pending>,
    ) -> Result<LevelSearch<'g, W, N>, NotPacked>
        requires narrow { N ≤ 64 }
        ensures script { IfOk result (λ search.
            played_by search ≡ script_of trial.entry.basis rules.entry.plain rules.entry.late) }
        ensures start { IfOk result (λ search. start_of search ≡ spot_with trial.entry.here (waits_shown waits)) }
    {
        let mut keys = SpotKeys::try_new(alloc, trial.here())?;
        let key = keys.pack_start(&trial, waits)?;
        let again = key;
        let Ok(start) = Box::new(alloc, key) else {
            return Err(NotPacked::Memory);
        };
        let Ok(at) = Box::new(alloc, again) else {
            return Err(NotPacked::Memory);
        };
        let Ok(board) = OwnBoard::copy_of(alloc, trial.here()) else {
            return Err(NotPacked::Memory);
        };
        let Ok(trial) = Box::new(alloc, trial) else {
            return Err(NotPacked::Memory);
        };
        let Ok(rules) = Box::new(alloc, rules) else {
            return Err(NotPacked::Memory);
        };
        Ok(LevelSearch {
            trial,
            rules,
            keys,
            board,
            start,
            at,
        })
    }

    /// Has the trial restart to the board with this number from then on, and goes to the spot of that board.
    fn restart_at(&mut self, number: u32)
        requires { number < length self.old.keys.restarts }
        ensures script { played_by self.new ≡ played_by self.old }
        ensures keys { self.new.keys ≡ self.old.keys }
        ensures start { self.new.start ≡ self.old.start }
        ensures at { self.new.at.restart ≡ number }
    {
        if number == self.at.restart {
            return;
        }
        let board = self.keys.restart_key(number);
        self.keys.unpack(&self.at.board, &board, &mut self.board);
        self.trial.go_to(self.board.board());
        self.trial.restart_at(self.board.board());
        *self.at = SpotKey {
            board,
            restart: number,
            waits: None,
        };
    }

    /// Goes to a spot whose restarts go back to the same board.
    fn go_to(&mut self, key: &SpotKey<N>)
        requires known { IsSpotKey self.old.keys key.now.board.words key.now.restart }
        requires restart { self.old.at.restart ≡ key.now.restart }
        ensures script { played_by self.new ≡ played_by self.old }
        ensures keys { self.new.keys ≡ self.old.keys }
        ensures start { self.new.start ≡ self.old.start }
        ensures at { self.new.at ≡ key_parts key.now.board.words key.now.restart key.now.waits }
    {
        self.keys
            .unpack(&self.at.board, &key.board, &mut self.board);
        self.trial.go_to(self.board.board());
        *self.at = *key;
    }
}

impl<'g, W: ColumnWords, const N: usize> Moves for LevelSearch<'g, W, N> {
    ghost use Rattle.ps_model.specs.session.Solving.{Spot, next_spot};
    ghost use Rattle.ps_solve.specs.Searches.{here_of, played_by, start_of};
    ghost use Rattle.ps_solve.specs.SpotKeys.{IsSpotKey, spot_at};
    ghost use Rattle.std.proofs.Common.{rules};
    ghost use Rattle.std.proofs.lemmas.Bool.Decides.{nat_tests};

    type Input = Input;

    type Key = SpotKey<N>;

    type Fault = NotPacked;

    ghost Place = { Spot };

    ghost next = { λ search here input. next_spot (played_by search) 0 here input };

    ghost start = { λ search. start_of search };

    ghost is_key = { λ search key. IsSpotKey search.keys key.board.words key.restart };

    ghost place = { λ search key. spot_at search.keys key.board.words key.restart key.waits };

    ghost here = { λ search. here_of search };

    fn start(&mut self) -> Result<SpotKey<N>, NotPacked> {
        Ok(*self.start)
    }

    fn go(&mut self, key: &SpotKey<N>) -> Result<(), NotPacked> {
        let _keys = &self.keys;
        self.restart_at(key.restart);
        self.go_to(key);
        Ok(())
    }

    fn step(&mut self, input: Input) -> Result<Step<SpotKey<N>>, NotPacked> {
        let pressed = match self.trial.press(&mut *self.rules, self.at.waits, input) {
            Ok(pressed) => pressed,
            Err(_) => return Err(NotPacked::Memory),
        };
        step_to(&mut self.keys, &*self.at, &*self.trial, pressed)
    }

    ghost one_place = { Prim.search (rules, nat_tests) };
}
