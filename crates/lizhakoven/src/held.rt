//! A session that owns its game.

ghost use Rattle.std.specs.Prelude.{◌≡◌, [], IfOk, OnErr, OnOk};
ghost use Rattle.lizhakoven.specs.HeldSessions.{HasText, IsAt, with_keys};

use crate::compiled_game::CompiledGame;
use crate::keyed::text_of_keys;
use crate::looking::look_along;
use crate::played_keys::{PlayedKeys, copied_if};
use crate::seeing::Seen;
use ps_model::Memory;
use ps_screen::OutputText;
use std::alloc::Global;
use std::marker::Model;
use std::rc::Rc;

/// A session: its game, which it shares with its copies and with others that began there, the entry at which it began,
/// and all its keys. What it has come to is what these keys lead to. What the first of them have led to is kept, if
/// they were played.
pub struct HeldSession {
    game: Rc<CompiledGame>,
    entry: usize,
    keys: Vec<u8>,
    played: Option<PlayedKeys>,
}

/// Written out, so that a function that owns a session calls this where it returns, instead of dropping its parts.
impl Drop for HeldSession {
    fn drop(self) {
        let HeldSession {
            game: _game,
            entry: _,
            keys: _keys,
            played: _played,
        } = self;
    }
}

impl Model for HeldSession {
    ghost use Rattle.lizhakoven.specs.HeldSessions.{HeldValue};
    ghost use Rattle.lizhakoven.specs.PlayedKeys.{ArePlayed, IsOfKeysIf};

    ghost Value = { HeldValue };

    ghost view = { λ s. record { read = s.game.value; entry = s.entry; keys = s.keys.items } };

    ghost invariant = { λ s. IsOfKeysIf s.game.value.names s.keys.items s.played
        × ArePlayed s.game.value s.entry s.keys.items s.played };
}

impl HeldSession {
    /// A session that begins at an entry of a game, with no key yet. It shares the game.
    ///
    /// # Errors
    ///
    /// `Memory`.
    pub fn new(alloc: Global, game: &Rc<CompiledGame>, entry: usize) -> Result<HeldSession, Memory>
        ensures { IfOk result (λ session. session ≡ record { read = game.now.value; entry = entry; keys = [] }) }
    {
        let game = game.clone()?;
        Ok(HeldSession {
            game,
            entry,
            keys: Vec::new(alloc),
            played: None,
        })
    }

    /// Another session that is where this one is. The two share their game, which stays as it is, and nothing else.
    ///
    /// # Errors
    ///
    /// `Memory`.
    pub fn copied(&mut self, alloc: Global) -> Result<HeldSession, Memory>
        ensures same { self.new ≡ self.old }
        ensures copy { IfOk result (λ session. session ≡ self.old) }
    {
        let keys = Vec::from_slice(alloc, &self.keys)?;
        let game = self.game.clone()?;
        let played = copied_if(alloc, &self.game, self.entry, &mut self.played)?;
        Ok(HeldSession {
            game,
            entry: self.entry,
            keys,
            played,
        })
    }

    /// Gives it keys, which come after its own.
    ///
    /// # Errors
    ///
    /// `Memory`: the session is as before, and the same keys may be given again.
    pub fn add_keys(&mut self, keys: &[u8]) -> Result<(), Memory>
        ensures added { OnOk result (self.new ≡ with_keys self.old keys.now) }
        ensures same { OnErr result (self.new ≡ self.old) }
    {
        self.keys.extend_from_slice(keys)?;
        Ok(())
    }

    /// Plays its keys, but for those that are played already, and tells where they lead, with the cells at the front of
    /// `cells`.
    ///
    /// # Errors
    ///
    /// `Memory`, and the cells are as before. The next look may play all keys.
    pub fn look(&mut self, alloc: Global, cells: &mut [u32]) -> Result<Seen, Memory>
        ensures same { self.new ≡ self.old }
        ensures seen { IfOk result (λ seen. IsAt self.old cells.old cells.new seen) }
        ensures kept { OnErr result (cells.new ≡ cells.old) }
    {
        let script = self.game.script_at(self.entry);
        look_along(alloc, script, &self.keys, &mut self.played, cells)
    }

    /// Plays its keys, and tells all that is written since its start.
    ///
    /// # Errors
    ///
    /// `Memory`.
    pub fn text(&self, alloc: Global) -> Result<OutputText, Memory>
        ensures { IfOk result (λ wrote. HasText self.now wrote) }
    {
        text_of_keys(alloc, self.game.script_at(self.entry), &self.keys)
    }
}
