//! A game that is open.

ghost use Rattle.std.specs.Prelude.{◌≡◌, IfErr, IfOk, Some};
ghost use Rattle.ps_describe.specs.Descriptions.{name_of_object, object_of};
ghost use Rattle.ps_facts.specs.NamesShown.{names_shown};
ghost use Rattle.ps_model.specs.declared.faults.Fault.{Fault as TheFault};
ghost use Rattle.ps_model.specs.game.Games.{faults};
ghost use Rattle.ps_model.specs.game.LevelRuns.{level_entry};
ghost use Rattle.ps_model.specs.names.Names.{object_count};
ghost use Rattle.ps_model.specs.session.RoomSizes.{HasRoomSize};
ghost use Rattle.ps_model.specs.text.Faults.{first_fault};
ghost use Rattle.ps_stage.specs.Playable.{ArePlayable};
ghost use Rattle.lizhakoven.specs.Calls.{IsBegun};
ghost use Rattle.lizhakoven.specs.GameCalls.{HasOpened, IsNamedBy};

use crate::compiled_game::CompiledGame;
use crate::held::HeldSession;
use crate::statuses::Status;
use crate::telling::write_bytes;
use ps_describe::name_of_object;
use ps_facts::{Named, declared_names};
use ps_game::{Game, read_game};
use ps_model::{Memory, ObjectId, Refusal};
use ps_stage::level_entry;
use ps_text::Source;
use std::alloc::Global;
use std::marker::Model;
use std::rc::Rc;

/// A game that is open: its text, which alone says how the objects are called, and what was read from it and compiled,
/// which its sessions share.
pub struct HeldGame {
    source: Source,
    game: Rc<CompiledGame>,
}

/// Written out, so that a function that owns a game calls this where it returns, instead of dropping its parts.
impl Drop for HeldGame {
    fn drop(self) {
        let HeldGame {
            source: _source,
            game: _game,
        } = self;
    }
}

impl Model for HeldGame {
    ghost use Rattle.lizhakoven.specs.OpenGames.{OpenGame};

    ghost Value = { OpenGame };

    ghost view = { λ g. record { text = g.source; read = g.game.value } };
}

/// How many objects a game has.
fn objects_in(game: &CompiledGame) -> u32
    ensures { result ≡ object_count game.now.names }
{
    game.names().object_count()
}

/// The place among the entries of a game of the level of that number, if there is one.
fn entry_in(game: &CompiledGame, level: usize) -> Option<usize>
    ensures { result ≡ level_entry game.now.entries level }
{
    level_entry(game.entries(), level)
}

/// What the object of a number is called by the names that a text declares.
fn called<'a>(game: &CompiledGame, declared: &[Named<'a>], object: u32) -> &'a str
    ensures { result.now ≡ name_of_object game.now.names (names_shown declared.now) (object_of object) }
{
    name_of_object(game.names(), declared, ObjectId(object))
}

impl HeldGame {
    /// The game that was read from a text, compiled.
    ///
    /// # Errors
    ///
    /// `Memory`.
    fn new(alloc: Global, source: Source, game: Game) -> Result<HeldGame, Memory>
        requires playable { ArePlayable game.names game.entries }
        requires rooms { HasRoomSize game.options }
        ensures { IfOk result (λ held. held ≡ record { text = source; read = game }) }
    {
        let game = CompiledGame::new(alloc, game)?;
        let game = Rc::new(alloc, game)?;
        Ok(HeldGame { source, game })
    }

    /// Reads the game of a text, and compiles its rules.
    ///
    /// # Errors
    ///
    /// `Refused` with the first fault of the text, where it has one. `Memory`.
    pub fn read(alloc: Global, text: &[u8]) -> Result<HeldGame, Refusal>
        ensures opened { IfOk result (λ held. HasOpened text.now (Some held)) }
        ensures refused { IfErr result (λ e. (fault : TheFault) → e ≡ Refusal.Refused fault
            → first_fault (faults text.now) ≡ Some fault) }
    {
        let game = read_game(alloc, text)?;
        let source = Source::read(alloc, text)?;
        let held = HeldGame::new(alloc, source, game)?;
        Ok(held)
    }

    /// A session that begins at a level, with no key yet. It shares the game, and may go on after that is closed.
    ///
    /// # Errors
    ///
    /// `NoLevel` where the game has no such level; levels alone are counted, from 1. `Memory`.
    pub fn begin(&self, alloc: Global, level: usize) -> Result<HeldSession, Status>
        ensures { IsBegun self.now level result }
    {
        let Some(entry) = entry_in(&self.game, level) else {
            return Err(Status::NoLevel);
        };
        let Ok(session) = HeldSession::new(alloc, &self.game, entry) else {
            return Err(Status::Memory);
        };
        Ok(session)
    }

    /// Writes how an object is called to the front of `name`, as the text writes it. The length is written anew.
    ///
    /// `Done`: `length` bytes are written. `NoRoom`: there are `length` bytes, which is more than there is room for.
    /// `NoObject`: the game has no object of that number. `Memory`. But for `Done` `name` is as before.
    pub fn tell_name(
        &self,
        alloc: Global,
        object: u32,
        name: &mut [u8],
        length: &mut usize,
    ) -> Status
        ensures { IsNamedBy self.now object name.old name.new length.new result }
    {
        *length = 0;
        if object >= objects_in(&self.game) {
            return Status::NoObject;
        }
        let Ok(declared) = declared_names(alloc, &self.source) else {
            return Status::Memory;
        };
        let bytes = called(&self.game, &declared, object).as_bytes();
        *length = bytes.len();
        Status::of_told(write_bytes(bytes, name))
    }
}
