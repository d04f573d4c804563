//! Levels that are searched for keys that win.

ghost use Rattle.std.specs.Prelude.{◌≡◌, ◌≢◌, Err, false, true, IfErr, IfOk, OnOk, codes, map};
ghost use Rattle.ps_answers.specs.TellsLevels.{Tells};
ghost use Rattle.ps_command.specs.Searched.{AreLinesToldOf, AreLinesToldOfText, AreWonLines, IsLineOnRefused};
ghost use Rattle.ps_command.specs.Searched.{IsRefused, TellsOfGivenText, form_of, how_refused, question_of};
ghost use Rattle.ps_command.specs.Statuses.{IsApart};
ghost use Rattle.ps_command.specs.Stops.{StopsSearch};
ghost use Rattle.ps_command.specs.Told.{TellsInOrder};
ghost use Rattle.ps_command.specs.declared.stops.Stop.TheVariants as Stop;

use crate::command::Solve;
use crate::engine::Engine;
use crate::files::read_one;
use crate::reporting::report_bytes;
use crate::stops::{Stop, tell_no_such_level};
use ps_answers::{
    Form, LevelSolver, LevelTeller, Refusal, SearchProgress, SolvableGame, TellFault,
};
use ps_devices::{ByteReader, ByteWriter, Player, RunFault};
use ps_records::Replayer;
use ps_report::{Detail, Format, How};
use ps_tracers::Tracing;
use std::rt::Files;
use std::time::Clock;

/// Says of levels of games on the screen whether they can be won, and in how few keys: a line for each, or an object of
/// JSON. Of several texts each line begins with the name of its text. A text that is no game is told as a check tells
/// it, and one that can't be read on standard error; neither ends the search of the others.
pub fn solve_asked<
    R: Files + AllocGlobal + Clock + Eprint,
    P: Player,
    S: LevelSolver,
    T: Tracing,
    Y: Replayer,
    I: ByteReader,
    O: ByteWriter,
>(
    rt: &R,
    engine: &Engine<'_, P, S, T, Y>,
    asked: &Solve<'_>,
    input: &mut I,
    screen: &mut O,
) -> Result<(), Stop>
    requires heard { (I.state input.old).has_failed ≡ false }
    requires well { (O.state screen.old).has_failed ≡ false }
    ensures won { OnOk result (TellsInOrder (AreWonLines (question_of asked.now))
        (map (λ path. path.now) asked.now.paths.items) (O.state screen.old).contents (O.state screen.new).contents) }
    ensures told { result ≡ Err Stop.NotAccepted → TellsInOrder (AreLinesToldOf (question_of asked.now))
        (map (λ path. path.now) asked.now.paths.items) (O.state screen.old).contents (O.state screen.new).contents }
    ensures stopped { IfErr result StopsSearch }
{
    let question = Question {
        level: asked.level,
        limit: asked.limit,
        is_named: asked.paths.len() > 1,
        is_data: asked.is_data,
    };
    let search = Search {
        rt,
        solver: engine.solver,
        question,
        is_watched: engine.is_watched,
        stop_file: asked.stop_file,
    };
    if search.solve_files(&asked.paths, input, screen)? {
        Ok(())
    } else {
        Err(Stop::NotAccepted)
    }
}

/// What is asked of each text.
#[derive(Clone, Copy)]
pub struct Question {
    /// The number of the level; all levels, where there is none.
    pub level: Option<usize>,
    /// How many states are kept at most for a level.
    pub limit: u32,
    /// Whether each line for people begins with the name of its text.
    pub is_named: bool,
    /// Whether objects of JSON are told, and no lines for people.
    pub is_data: bool,
}

impl Question {
    /// In which form answers are told.
    pub fn form(&self) -> Form
        ensures { result ≡ form_of self.now }
    {
        if self.is_data {
            return Form::Object;
        }
        if self.is_named {
            Form::NamedLine
        } else {
            Form::Line
        }
    }

    /// How a text is told that is no game: as a check tells its first fault.
    fn how_refused(&self) -> How
        ensures { result ≡ how_refused self.now }
    {
        let format = if self.is_data {
            Format::Json
        } else {
            Format::Text
        };
        How {
            format,
            is_named: self.is_named,
            detail: Detail::Line,
            most: 1,
            counts: false,
            warns: false,
            strict: false,
        }
    }
}

/// What searches texts for levels that can be won.
#[derive(Drop)]
pub struct Search<'s, R: Files + AllocGlobal + Clock + Eprint, S: LevelSolver> {
    pub rt: &'s R,
    pub solver: &'s S,
    pub question: Question,
    /// Whether it is said on standard error how far the search is.
    pub is_watched: bool,
    /// The file that ends the search once it is there, if one is named.
    pub stop_file: Option<&'s str>,
}

impl<'s, R: Files + AllocGlobal + Clock + Eprint, S: LevelSolver> Search<'s, R, S> {
    /// Says of levels of the games in files whether they can be won, and answers whether all can.
    fn solve_files<I: ByteReader, O: ByteWriter>(
        &self,
        paths: &[&str],
        input: &mut I,
        screen: &mut O,
    ) -> Result<bool, Stop>
        requires heard { (I.state input.old).has_failed ≡ false }
        requires well { (O.state screen.old).has_failed ≡ false }
        ensures won { IfOk result (λ won. won ≡ true → TellsInOrder (AreWonLines self.now.question)
            (map (λ path. path.now) paths.now) (O.state screen.old).contents (O.state screen.new).contents) }
        ensures told { OnOk result (TellsInOrder (AreLinesToldOf self.now.question)
            (map (λ path. path.now) paths.now) (O.state screen.old).contents (O.state screen.new).contents) }
        ensures fault { IfErr result (λ stop. stop ≢ Stop.NotAccepted) }
        ensures stopped { IfErr result StopsSearch }
    {
        let mut all_won = true;
        for path in paths {
            let won = self.solve_file(*path, input, screen)?;
            all_won = all_won && won;
        }
        Ok(all_won)
    }

    /// Says of levels of the game in a file whether they can be won, and answers whether all can. Nothing is said on
    /// the screen of a file that can't be read.
    #[tactic(auto, using(crate::proofs::LinesOnLevels::files_read))]
    fn solve_file<I: ByteReader, O: ByteWriter>(
        &self,
        path: &str,
        input: &mut I,
        screen: &mut O,
    ) -> Result<bool, Stop>
        requires heard { (I.state input.old).has_failed ≡ false }
        requires well { (O.state screen.old).has_failed ≡ false }
        ensures heard { OnOk result ((I.state input.new).has_failed ≡ false) }
        ensures well { OnOk result ((O.state screen.new).has_failed ≡ false) }
        ensures won { IfOk result (λ won. won ≡ true → Tells (AreWonLines self.now.question path.now)
            (O.state screen.old).contents (O.state screen.new).contents) }
        ensures told { OnOk result (Tells (AreLinesToldOf self.now.question path.now)
            (O.state screen.old).contents (O.state screen.new).contents) }
        ensures given { path.now ≡ codes "-" → OnOk result (TellsOfGivenText self.now.question path.now
            (I.state input.old).remaining (I.state input.new).remaining
            (O.state screen.old).contents (O.state screen.new).contents) }
        ensures fault { IfErr result (λ stop. stop ≢ Stop.NotAccepted) }
        ensures stopped { IfErr result StopsSearch }
    {
        match read_one(self.rt, path, input)? {
            Some(text) => self.solve_text(path, &text, screen),
            None => Ok(false),
        }
    }

    /// Says of levels of the game of a text whether they can be won, and answers whether all can.
    #[tactic(auto, using(crate::proofs::LinesOnLevels::refused_told))]
    fn solve_text<O: ByteWriter>(
        &self,
        path: &str,
        text: &[u8],
        screen: &mut O,
    ) -> Result<bool, Stop>
        requires well { (O.state screen.old).has_failed ≡ false }
        ensures well { OnOk result ((O.state screen.new).has_failed ≡ false) }
        ensures won { IfOk result (λ won. won ≡ true → Tells (AreWonLines self.now.question path.now)
            (O.state screen.old).contents (O.state screen.new).contents) }
        ensures told { OnOk result (Tells (AreLinesToldOfText self.now.question path.now text.now)
            (O.state screen.old).contents (O.state screen.new).contents) }
        ensures fault { IfErr result (λ stop. stop ≢ Stop.NotAccepted) }
        ensures stopped { IfErr result StopsSearch }
    {
        match self.solver.open(self.rt.alloc(), text) {
            Ok(game) => self.solve_game(path, &game, screen),
            Err(Refusal::Memory) => Err(Stop::Run(RunFault::Memory)),
            Err(Refusal::Refused(_)) => {
                self.tell_refused(path, text, screen)?;
                Ok(false)
            }
        }
    }

    /// The same of a game whose text has this name.
    fn solve_game<O: ByteWriter>(
        &self,
        path: &str,
        game: &S::Game,
        screen: &mut O,
    ) -> Result<bool, Stop>
        requires well { (O.state screen.old).has_failed ≡ false }
        ensures well { OnOk result ((O.state screen.new).has_failed ≡ false) }
        ensures won { IfOk result (λ won. won ≡ true → Tells (AreWonLines self.now.question path.now)
            (O.state screen.old).contents (O.state screen.new).contents) }
        ensures told { OnOk result (Tells (AreLinesToldOfText self.now.question path.now (S.Game.text game.now))
            (O.state screen.old).contents (O.state screen.new).contents) }
        ensures fault { IfErr result (λ stop. stop ≢ Stop.NotAccepted) }
        ensures stopped { IfErr result StopsSearch }
    {
        let mut progress = SearchProgress::new(self.rt, self.is_watched, self.stop_file);
        let mut teller = LevelTeller {
            alloc: self.rt.alloc(),
            game,
            watcher: &mut progress,
            form: self.question.form(),
            name: path,
            limit: self.question.limit,
        };
        match teller.tell(self.question.level, screen) {
            Ok(Some(all_won)) => Ok(all_won),
            Ok(None) => {
                self.tell_lacking(path, game.level_count())?;
                Ok(false)
            }
            Err(TellFault::Memory) => Err(Stop::Run(RunFault::Memory)),
            Err(TellFault::Write) => Err(Stop::Run(RunFault::Write)),
        }
    }

    /// What a line on standard error begins with, on the text with this name.
    fn front_of(&self, path: &str) -> Result<String, Stop>
        ensures fault { IfErr result (λ stop. stop ≢ Stop.NotAccepted) }
        ensures stopped { IfErr result StopsSearch }
    {
        if !self.question.is_named {
            return Ok(String::new(self.rt.alloc()));
        }
        let front = format!(in self.rt.alloc(); "{path}: ")?;
        Ok(front)
    }

    /// Says on standard error that the game in a file has no level of the number that is asked for, and how many it
    /// has.
    fn tell_lacking(&self, path: &str, levels: usize) -> Result<(), Stop>
        ensures fault { IfErr result (λ stop. stop ≢ Stop.NotAccepted) }
        ensures stopped { IfErr result StopsSearch }
    {
        let front = self.front_of(path)?;
        if let Some(level) = self.question.level {
            tell_no_such_level(self.rt, &front, level, levels);
        }
        Ok(())
    }

    /// Says of a text that is no game which fault it has first.
    #[tactic(auto, using(crate::proofs::TasksStopped::check_search))]
    pub fn tell_refused<O: ByteWriter>(
        &self,
        path: &str,
        text: &[u8],
        screen: &mut O,
    ) -> Result<(), Stop>
        requires well { (O.state screen.old).has_failed ≡ false }
        requires refused { IsRefused text.now }
        ensures well { OnOk result ((O.state screen.new).has_failed ≡ false) }
        ensures told { OnOk result (Tells (IsLineOnRefused self.now.question path.now text.now)
            (O.state screen.old).contents (O.state screen.new).contents) }
        ensures fault { IfErr result (λ stop. stop ≢ Stop.NotAccepted) }
        ensures stopped { IfErr result StopsSearch }
        ensures apart { IfErr result IsApart }
    {
        let how = self.question.how_refused();
        let _ = report_bytes(self.rt.alloc(), path, text, how, screen)?;
        Ok(())
    }
}
