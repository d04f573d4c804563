//! The search of a level by short keys.

ghost use Rattle.std.specs.Prelude.{◌≡◌, ◌≤◌, ℕ, Some};
ghost use Rattle.ps_model.specs.board.Turns.{Script};
ghost use Rattle.ps_model.specs.session.Sessions.{Session};
ghost use Rattle.ps_model.specs.session.Solving.{spot};
ghost use Rattle.ps_trial.specs.Scripts.{PlaysAs};
ghost use Rattle.ps_answers.specs.SolvedLevels.{IsSolved};
ghost use Rattle.ps_solve.specs.Searches.{played_by, start_of};

use crate::level_search::LevelSearch;
use crate::situations::{KeptKey, Situations};
use crate::solved::told;
use ps_answers::Solved;
use ps_board::ColumnWords;
use ps_model::Input;
use ps_rows::NotPacked;
use ps_search::{Moves, Step, Watcher, search};
use std::alloc::Global;

/// The inputs that are tried at each spot, in the order of the keys `w`, `a`, `s`, `d` and `x`.
const INPUTS: [Input; 5] = [
    Input::Up,
    Input::Left,
    Input::Down,
    Input::Right,
    Input::Action,
];

/// A search of a level that keeps of each spot the key of its board, and a number for all else.
pub(crate) struct NumberedSearch<'g, W: ColumnWords, const N: usize> {
    search: LevelSearch<'g, W, N>,
    situations: Situations,
    ghost narrow: { N ≤ 64 },
}

/// Written out, so that an owner calls this where it returns, instead of dropping the parts.
impl<'g, W: ColumnWords, const N: usize> Drop for NumberedSearch<'g, W, N> {
    fn drop(self) {
        let NumberedSearch {
            search: _search,
            situations: _situations,
        } = self;
    }
}

impl<'g, W: ColumnWords, const N: usize> NumberedSearch<'g, W, N> {
    /// A search from where another one begins.
    pub(crate) fn new(alloc: Global, search: LevelSearch<'g, W, N>) -> NumberedSearch<'g, W, N>
        requires { N ≤ 64 }
        ensures { result.search ≡ search.entry }
    {
        NumberedSearch {
            search,
            situations: Situations::new(alloc),
        }
    }

    /// Searches the level for the shortest list of directions and `x` that leads past it, and keeps at most `limit`
    /// spots. What it tells is true of each script that is played by the game's turns, from each session at the spot
    /// where the search begins.
    ///
    /// It may run out of memory, the watcher may stop it, or a key may be full. Then the answer says up to which length
    /// no list leads past. It can be called again, and begins anew then.
    pub(crate) fn solve<T: Watcher>(&mut self, alloc: Global, limit: u32, watcher: &mut T) -> Solved
        ensures solved { (script : Script) (entry : ℕ) (session : Session) → PlaysAs script (played_by self.old.search)
            → spot entry session ≡ Some (start_of self.old.search) → IsSolved script entry session limit result }
    {
        let found = search(alloc, self, &INPUTS, limit, watcher);
        told(found)
    }
}

impl<'g, W: ColumnWords, const N: usize> Moves for NumberedSearch<'g, W, N> {
    ghost use Rattle.ps_model.specs.session.Solving.{Spot, next_spot};
    ghost use Rattle.ps_solve.specs.Searches.{here_of, played_by, start_of};
    ghost use Rattle.ps_solve.specs.Situations.{IsKept, spot_kept};
    ghost use Rattle.std.proofs.Common.{rules};
    ghost use Rattle.std.proofs.lemmas.Bool.Decides.{nat_tests};

    type Input = Input;

    type Key = KeptKey<N>;

    type Fault = NotPacked;

    ghost Place = { Spot };

    ghost next = { λ s here input. next_spot (played_by s.search) 0 here input };

    ghost start = { λ s. start_of s.search };

    ghost is_key = { λ s key. IsKept s.search.keys s.situations key.board.words key.situation };

    ghost place = { λ s key. spot_kept s.search.keys s.situations key.board.words key.situation };

    ghost here = { λ s. here_of s.search };

    fn start(&mut self) -> Result<KeptKey<N>, NotPacked> {
        let key = self.search.start()?;
        self.situations.kept_key(key)
    }

    fn go(&mut self, key: &KeptKey<N>) -> Result<(), NotPacked> {
        let key = self.situations.spot_key(key);
        self.search.go(&key)
    }

    fn step(&mut self, input: Input) -> Result<Step<KeptKey<N>>, NotPacked> {
        match self.search.step(input) {
            Ok(Step::Same) => Ok(Step::Same),
            Ok(Step::Past) => Ok(Step::Past),
            Ok(Step::To(key)) => match self.situations.kept_key(key) {
                Ok(kept) => Ok(Step::To(kept)),
                Err(fault) => Err(fault),
            },
            Err(fault) => Err(fault),
        }
    }

    ghost one_place = { Prim.search (rules, nat_tests) };
}
