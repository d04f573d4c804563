//! What C has of a game.

ghost use Rattle.std.specs.Prelude.{◌≡◌, Option, Some, None, is_some, option_map, true};
ghost use Rattle.lizhakoven.specs.OpenGames.{OpenGame};

use crate::boxed::Loose;
use crate::held_game::HeldGame;
use std::alloc::Global;
use std::marker::Model;
use std::mem;

/// A game, as C has it: open, where it owns one, or closed. C takes no type that has parameters, so the handle of a
/// session is another type.
#[repr(C)]
#[derive(Drop)]
pub struct GameHandle {
    at: *mut u8,
    is_open: bool,
    ghost value: { Option OpenGame },
}

impl Model for GameHandle {
    ghost use Rattle.lizhakoven.specs.Handles.{owned_by};
    ghost use Rattle.lizhakoven.specs.contracts.held_game.HeldGame.{the_row};

    ghost also_owns = { λ h. owned_by the_row h.at h.is_open h.value };
}

impl GameHandle {
    /// A closed handle.
    pub fn closed() -> GameHandle
        ensures { result.value ≡ None }
    {
        let mut nothing = 0u8;
        GameHandle {
            at: &raw mut nothing,
            is_open: false,
        }
    }

    /// The handle, and whether it is open.
    fn told(self) -> (GameHandle, bool)
        ensures same { result.0 ≡ self }
        ensures told { (result.1 ≡ self.is_open) × (self.is_open ≡ is_some self.value) }
    {
        let GameHandle { at, is_open } = self;
        (GameHandle { at, is_open }, is_open)
    }

    /// What an open handle owns.
    fn into_loose(self, alloc: Global) -> Loose<HeldGame, Global>
        requires { self.is_open ≡ true }
        ensures { Some result.value ≡ self.value }
    {
        let GameHandle { at, is_open: _ } = self;
        Loose {
            at: at as *mut HeldGame,
            alloc,
        }
    }

    /// An open handle that owns a game.
    fn of_loose(loose: Loose<HeldGame, Global>) -> GameHandle
        ensures { result.value ≡ Some loose.value }
    {
        let Loose { at, alloc: _ } = loose;
        GameHandle {
            at: at as *mut u8,
            is_open: true,
        }
    }

    /// Takes the game of a handle, if it is open, and leaves it closed.
    pub fn take(&mut self, alloc: Global) -> Option<Box<HeldGame>>
        ensures taken { option_map (λ game. game.value) result ≡ self.old.value }
        ensures closed { self.new.value ≡ None }
    {
        let (handle, is_open) = mem::replace(self, GameHandle::closed()).told();
        if !is_open {
            return None;
        }
        Some(handle.into_loose(alloc).into_box())
    }

    /// Has a handle own a game, in place of what it owned.
    pub fn put(&mut self, game: Box<HeldGame>)
        ensures { self.new.value ≡ Some game.value }
    {
        let _ = mem::replace(self, GameHandle::of_loose(Loose::of(game)));
    }
}
