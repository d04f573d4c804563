//! A game at rest.

ghost use Rattle.std.specs.Prelude.{◌≡◌, IfOk};
ghost use Rattle.ps_session.specs.RestedSessions.{without_history};
ghost use Rattle.ps_run.specs.SizedPlays.{rested_in};

use crate::row_play::{RestedRows, copied_rows};
use crate::sized_play::sides_of;
use ps_board::{ManyWords, OneWord};
use ps_model::Memory;
use ps_session::SessionGame;
use std::alloc::Global;

/// A game at rest on boards whose rows are kept by one to four words: where the player is, without the game and its
/// rules. [`GamePlay::resume`](crate::GamePlay::resume) goes on with it.
#[derive(Drop)]
pub enum RestedPlay {
    One(RestedRows<OneWord>),
    Two(RestedRows<ManyWords<2>>),
    Three(RestedRows<ManyWords<3>>),
    Four(RestedRows<ManyWords<4>>),
}

impl RestedPlay {
    /// A copy without the boards that undo goes back to, in a game of the same names.
    ///
    /// # Errors
    ///
    /// `Memory`.
    pub fn copied(&mut self, alloc: Global, game: SessionGame<'_>) -> Result<RestedPlay, Memory>
        requires { game.names ≡ (rested_in self.old).names }
        ensures same { rested_in self.new ≡ rested_in self.old }
        ensures names { IfOk result (λ copy. (rested_in copy).names ≡ (rested_in self.old).names) }
        ensures session { IfOk result (λ copy.
            (rested_in copy).session ≡ without_history (rested_in self.old).session) }
    {
        match self {
            RestedPlay::One(rows) => {
                let copy = copied_rows(alloc, game, sides_of(1), rows)?;
                Ok(RestedPlay::One(copy))
            }
            RestedPlay::Two(rows) => {
                let copy = copied_rows(alloc, game, sides_of(2), rows)?;
                Ok(RestedPlay::Two(copy))
            }
            RestedPlay::Three(rows) => {
                let copy = copied_rows(alloc, game, sides_of(3), rows)?;
                Ok(RestedPlay::Three(copy))
            }
            RestedPlay::Four(rows) => {
                let copy = copied_rows(alloc, game, sides_of(4), rows)?;
                Ok(RestedPlay::Four(copy))
            }
        }
    }

    /// The same without the boards that undo goes back to.
    pub fn without_history(self) -> RestedPlay
        ensures names { (rested_in result).names ≡ (rested_in self).names }
        ensures session { (rested_in result).session ≡ without_history (rested_in self).session }
    {
        match self {
            RestedPlay::One(rows) => RestedPlay::One(rows.without_history()),
            RestedPlay::Two(rows) => RestedPlay::Two(rows.without_history()),
            RestedPlay::Three(rows) => RestedPlay::Three(rows.without_history()),
            RestedPlay::Four(rows) => RestedPlay::Four(rows.without_history()),
        }
    }
}
