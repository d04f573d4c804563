//! Who tells what can be said of levels.

ghost use Rattle.std.specs.Prelude.{◌≡◌, ◌≢◌, ◌≤◌, Err, false, IfErr, IfOk, IfSome, None, Ok};
ghost use Rattle.ps_devices.specs.Devices.{Grows};
ghost use Rattle.ps_answers.specs.Forms.{told_in};
ghost use Rattle.ps_answers.specs.SolvedAfterKeys.{HasStart};
ghost use Rattle.ps_answers.specs.SolvedLevels.{is_won};
ghost use Rattle.ps_answers.specs.SolvedTexts.{HasLevelOf, HasLevels, LacksAsked};
ghost use Rattle.ps_answers.specs.TellsAfterKeys.{TellsAfterKeys};
ghost use Rattle.ps_answers.specs.TellsLevels.{AreLinesOn, AreLinesOnFirst, AreLinesOnLevels, IsLineOnLevel, Tells};
ghost use Rattle.ps_answers.specs.declared.tellers.TellFault.TheVariants as TellFault;

use crate::forms::{Form, told_in};
use crate::runs::RunSoFar;
use crate::solved::{Solved, SolvedAfter};
use crate::solvers::SolvableGame;
use crate::watching::LevelWatcher;
use ps_devices::{ByteWriter, write_whole};
use ps_model::Memory;
use std::alloc::Global;
use thiserror::Error;

/// Why it isn't told of a level whether it can be won.
#[derive(Clone, Copy, PartialEq, Eq, Debug, Error)]
pub enum TellFault {
    /// A growth was refused.
    #[error("out of memory")]
    Memory,
    /// The writer failed, or took nothing of what it was given.
    #[error("cannot write")]
    Write,
}

impl From<Memory> for TellFault {
    ghost use Rattle.ps_answers.specs.declared.tellers.TellFault.TheVariants.{Memory};

    ghost from_gives = { λ _ fault. fault ≡ Memory };

    fn from(_error: Memory) -> TellFault {
        TellFault::Memory
    }
}

/// What a line says of the level to which the keys of a run lead, or why there is none.
#[derive(Clone, Copy, PartialEq, Eq, Debug)]
pub enum ToldAfter {
    /// A line that says whether the level can be won from there, and that.
    Line { is_won: bool },
    /// Nothing: the keys lead to no level.
    NoLevel,
    /// Nothing: the game lacks the level at which the run is to begin. It has this many.
    NoSuchLevel { level: usize, levels: usize },
}

/// Asks of the levels of a game whether they can be won, and tells the answers.
#[derive(Drop)]
pub struct LevelTeller<'s, G: SolvableGame, T: LevelWatcher> {
    pub alloc: Global,
    pub game: &'s G,
    pub watcher: &'s mut T,
    pub form: Form,
    /// The name of the game's text.
    pub name: &'s str,
    /// How many states may be kept for a level.
    pub limit: u32,
}

impl<'s, G: SolvableGame, T: LevelWatcher> LevelTeller<'s, G, T> {
    /// Tells in a line what was found of the level of that number, and answers whether it can be won.
    ///
    /// # Errors
    ///
    /// `Memory` where a growth was refused as the line was made. `Write` where the writer failed.
    fn tell_found<W: ByteWriter>(
        &self,
        level: usize,
        solved: &Solved,
        writer: &mut W,
    ) -> Result<bool, TellFault>
        requires well { (W.state writer.old).has_failed ≡ false }
        ensures answers { IfOk result (λ won. won ≡ is_won solved.now) }
        ensures told { IfOk result (λ won. Grows (W.state writer.old).contents (W.state writer.new).contents
            (told_in self.now.form self.now.name.now level solved.now)) }
        ensures well { result ≢ Err TellFault.Write → (W.state writer.new).has_failed ≡ false }
    {
        let line = told_in(self.alloc, self.form, self.name, level, solved)?;
        match write_whole(&line, writer) {
            Ok(()) => Ok(solved.is_won()),
            Err(_) => Err(TellFault::Write),
        }
    }

    /// Tells in a line whether the level of that number can be won, and answers that.
    ///
    /// # Errors
    ///
    /// `Memory` where a growth was refused before the search began, or as the line was made. `Write` where the writer
    /// failed.
    fn tell_level<W: ByteWriter>(&mut self, level: usize, writer: &mut W) -> Result<bool, TellFault>
        requires well { (W.state writer.old).has_failed ≡ false }
        requires level { HasLevelOf (G.text self.old.game.now) level }
        ensures game { self.new.game ≡ self.old.game }
        ensures form { self.new.form ≡ self.old.form }
        ensures name { self.new.name ≡ self.old.name }
        ensures limit { self.new.limit ≡ self.old.limit }
        ensures told { IfOk result (λ won. Tells
            (IsLineOnLevel (G.text self.old.game.now) (told_in self.old.form self.old.name.now) self.old.limit level
            won)
            (W.state writer.old).contents (W.state writer.new).contents) }
        ensures well { result ≢ Err TellFault.Write → (W.state writer.new).has_failed ≡ false }
    {
        self.watcher.begins(Some(level));
        let found = self
            .game
            .solve_level(self.alloc, level, self.limit, &mut *self.watcher);
        self.watcher.ends();
        let solved = found?;
        self.tell_found(level, &solved, writer)
    }

    /// Tells in a line for each of the first levels whether it can be won, and answers whether all can.
    fn tell_first<W: ByteWriter>(
        &mut self,
        levels: usize,
        writer: &mut W,
    ) -> Result<bool, TellFault>
        requires well { (W.state writer.old).has_failed ≡ false }
        requires levels { HasLevels (G.text self.old.game.now) levels }
        ensures told { IfOk result (λ won. Tells
            (AreLinesOnFirst (G.text self.old.game.now) (told_in self.old.form self.old.name.now) self.old.limit levels
            won)
            (W.state writer.old).contents (W.state writer.new).contents) }
        ensures well { result ≢ Err TellFault.Write → (W.state writer.new).has_failed ≡ false }
    {
        let mut all_won = true;
        for before in 0..levels {
            let won = self.tell_level(before + 1, writer)?;
            all_won = all_won && won;
        }
        Ok(all_won)
    }

    /// Tells in a line for each level whether it can be won, and answers whether all can.
    fn tell_levels<W: ByteWriter>(&mut self, writer: &mut W) -> Result<bool, TellFault>
        requires well { (W.state writer.old).has_failed ≡ false }
        ensures told { IfOk result (λ won. Tells
            (AreLinesOnLevels (G.text self.old.game.now) (told_in self.old.form self.old.name.now) self.old.limit won)
            (W.state writer.old).contents (W.state writer.new).contents) }
        ensures well { result ≢ Err TellFault.Write → (W.state writer.new).has_failed ≡ false }
    {
        let levels = self.game.level_count();
        self.tell_first(levels, writer)
    }

    /// Tells in a line whether the level of a number can be won, and answers that. Where there is no number each
    /// level is told, and whether all can be won is answered. Of a level that the game lacks nothing is told or
    /// answered.
    ///
    /// # Errors
    ///
    /// `Memory` where a growth was refused before a search began, or as a line was made: the lines before that are
    /// written. `Write` where the writer failed.
    pub fn tell<W: ByteWriter>(
        &mut self,
        level: Option<usize>,
        writer: &mut W,
    ) -> Result<Option<bool>, TellFault>
        requires well { (W.state writer.old).has_failed ≡ false }
        ensures told { IfOk result (λ told. IfSome told (λ won. Tells
            (AreLinesOn level (G.text self.old.game.now) (told_in self.old.form self.old.name.now) self.old.limit won)
            (W.state writer.old).contents (W.state writer.new).contents)) }
        ensures lacks { result ≡ Ok None → LacksAsked (G.text self.old.game.now) level }
        ensures lacking { result ≡ Ok None → writer.new ≡ writer.old }
        ensures well { result ≢ Err TellFault.Write → (W.state writer.new).has_failed ≡ false }
    {
        let Some(level) = level else {
            let won = self.tell_levels(writer)?;
            return Ok(Some(won));
        };
        let count = self.game.level_count();
        if level == 0 || count < level {
            return Ok(None);
        }
        let won = self.tell_level(level, writer)?;
        Ok(Some(won))
    }

    /// Tells in a line whether the level to which the keys of a run lead can be won from there.
    ///
    /// # Errors
    ///
    /// `Memory` where a growth was refused before the search began, or as the line was made. `Write` where the writer
    /// failed.
    pub fn tell_after<W: ByteWriter>(
        &mut self,
        run: RunSoFar<'_>,
        writer: &mut W,
    ) -> Result<ToldAfter, TellFault>
        requires well { (W.state writer.old).has_failed ≡ false }
        ensures told { IfOk result (λ told. TellsAfterKeys (G.text self.old.game.now) run.entry.level run.entry.keys.now
            (told_in self.old.form self.old.name.now) self.old.limit told
            (W.state writer.old).contents (W.state writer.new).contents) }
        ensures well { result ≢ Err TellFault.Write → (W.state writer.new).has_failed ≡ false }
    {
        let Some(level) = run.level else {
            return self.tell_where_led(run, writer);
        };
        let levels = self.game.level_count();
        if level == 0 || levels < level {
            return Ok(ToldAfter::NoSuchLevel { level, levels });
        }
        self.tell_where_led(run, writer)
    }

    /// The same, where the game has the level at which the run begins.
    fn tell_where_led<W: ByteWriter>(
        &mut self,
        run: RunSoFar<'_>,
        writer: &mut W,
    ) -> Result<ToldAfter, TellFault>
        requires well { (W.state writer.old).has_failed ≡ false }
        requires start { HasStart (G.text self.old.game.now) run.level }
        ensures told { IfOk result (λ told. TellsAfterKeys (G.text self.old.game.now) run.entry.level run.entry.keys.now
            (told_in self.old.form self.old.name.now) self.old.limit told
            (W.state writer.old).contents (W.state writer.new).contents) }
        ensures well { result ≢ Err TellFault.Write → (W.state writer.new).has_failed ≡ false }
    {
        self.watcher.begins(None);
        let found = self
            .game
            .solve_after(self.alloc, run, self.limit, &mut *self.watcher);
        self.watcher.ends();
        match found? {
            SolvedAfter::Level { level, solved } => {
                let is_won = self.tell_found(level, &solved, writer)?;
                Ok(ToldAfter::Line { is_won })
            }
            SolvedAfter::NoLevel => Ok(ToldAfter::NoLevel),
        }
    }
}
