//! A level that is searched from where the keys of a run lead.

ghost use Rattle.std.specs.Prelude.{◌≡◌, ◌≢◌, ◌<◌, ◌≤◌, ℕ, length, Err, false, true, IfErr, IfOk, OnOk, codes};
ghost use Rattle.ps_answers.specs.TellsLevels.{Tells};
ghost use Rattle.ps_model.specs.declared.limits.TheConstants.{READ_LIMIT};
ghost use Rattle.ps_command.specs.SearchedAfter.{HasGivenTooMany, IsLineOnUnwon, IsLineOnWon, IsSilentOnRead};
ghost use Rattle.ps_command.specs.SearchedAfter.{LacksStart, LeadNowhere, TellsOfRead, question_after};
ghost use Rattle.ps_command.specs.Statuses.{NamesNoLevel};
ghost use Rattle.ps_command.specs.Stops.{IsUnkeyed, StopsSearchAfter};
ghost use Rattle.ps_command.specs.declared.stops.Stop.TheVariants as Stop;
ghost use Rattle.ps_devices.specs.Devices.{IsSpent, Loses};

use crate::engine::Engine;
use crate::files::{STANDARD_INPUT, read_text};
use crate::solving::{Question, Search};
use crate::stops::{Stop, stop_for};
use ps_answers::{
    LevelSolver, LevelTeller, Refusal, RunSoFar, SearchProgress, TellFault, ToldAfter,
};
use ps_devices::{ByteReader, ByteWriter, Player, RunFault};
use ps_model::{CALL_LIMIT, READ_LIMIT};
use ps_records::Replayer;
use ps_tracers::Tracing;
use std::alloc::Global;
use std::fs;
use std::io::Read;
use std::rt::Files;
use std::time::Clock;

/// How many bytes of keys may be read: as many as a run reads at least, whatever its calls bring.
pub const MOST_KEYS: usize = READ_LIMIT as usize;

/// A level that is to be searched from where the keys of a run lead.
#[derive(Clone, Copy)]
pub struct SolveAfter<'w> {
    /// The file with the game's text, or `-` for standard input.
    pub game: &'w str,
    /// The number of the level at which the run begins, from 1, if it doesn't at the start.
    pub level: Option<usize>,
    /// The file with the keys of the run, or `-` for standard input.
    pub keys: &'w str,
    /// How many states are kept at most.
    pub limit: u32,
    /// Whether an object of JSON is told, and no line for people.
    pub is_data: bool,
    /// The file that ends the search once it is there, if one is named.
    pub stop_file: Option<&'w str>,
}

/// What is asked of the text.
fn question_of(asked: SolveAfter<'_>) -> Question
    ensures { result ≡ question_after asked.entry }
{
    Question {
        level: asked.level,
        limit: asked.limit,
        is_named: false,
        is_data: asked.is_data,
    }
}

/// Says on the screen of the level to which the keys of a run lead whether it can be won from there, and in how few
/// keys: in a line, or in an object of JSON. A text that is no game is told as a check tells it.
///
/// # Errors
///
/// `NotAccepted` where the level isn't known to be won, or the text is no game; `NoLevelThere` where the keys lead to
/// no level; `NoSuchLevel` where the game lacks the one at which the run is to begin; `TooManyKeys` where there are
/// more than may be read. Nothing was told in the last three cases.
#[tactic(auto, using(crate::proofs::LinesOnLed::told_of_read, crate::proofs::LinesOnLed::silent_on_read))]
pub fn solve_after_asked<
    R: Files + AllocGlobal + Clock + Eprint,
    P: Player,
    S: LevelSolver,
    T: Tracing,
    Y: Replayer,
    I: ByteReader,
    O: ByteWriter,
>(
    rt: &R,
    engine: &Engine<'_, P, S, T, Y>,
    asked: SolveAfter<'_>,
    input: &mut I,
    screen: &mut O,
) -> Result<(), Stop>
    requires heard { (I.state input.old).has_failed ≡ false }
    requires well { (O.state screen.old).has_failed ≡ false }
    ensures won { OnOk result
        (TellsOfRead asked.entry IsLineOnWon (I.state input.old).remaining (I.state input.new).remaining
        (O.state screen.old).contents (O.state screen.new).contents) }
    ensures unwon { result ≡ Err Stop.NotAccepted →
        TellsOfRead asked.entry IsLineOnUnwon (I.state input.old).remaining (I.state input.new).remaining
        (O.state screen.old).contents (O.state screen.new).contents }
    ensures nowhere { result ≡ Err Stop.NoLevelThere →
        IsSilentOnRead asked.entry LeadNowhere (I.state input.old).remaining (I.state input.new).remaining
        (O.state screen.old).contents (O.state screen.new).contents }
    ensures lacking { (level levels : ℕ) → result ≡ Err (Stop.NoSuchLevel level levels) →
        IsSilentOnRead asked.entry (LacksStart level levels) (I.state input.old).remaining
        (I.state input.new).remaining (O.state screen.old).contents (O.state screen.new).contents }
    ensures many { result ≡ Err Stop.TooManyKeys → asked.entry.game.now ≢ codes "-" →
        asked.entry.keys.now ≡ codes "-" →
        HasGivenTooMany (I.state input.old).remaining (I.state input.new).remaining }
    ensures stopped { IfErr result StopsSearchAfter }
{
    let text = read_text(rt, asked.game, input)?;
    let keys = read_keys(rt, asked.keys, input)?;
    let search = Search {
        rt,
        solver: engine.solver,
        question: question_of(asked),
        is_watched: engine.is_watched,
        stop_file: asked.stop_file,
    };
    search.solve_led(asked.game, &text, &keys, screen)
}

impl<'s, R: Files + AllocGlobal + Clock + Eprint, S: LevelSolver> Search<'s, R, S> {
    /// Says of the level to which keys lead, in the game of a text, whether it can be won from there.
    #[tactic(auto, using(crate::proofs::LinesOnLed::led_refused))]
    fn solve_led<O: ByteWriter>(
        &self,
        path: &str,
        text: &[u8],
        keys: &[u8],
        screen: &mut O,
    ) -> Result<(), Stop>
        requires well { (O.state screen.old).has_failed ≡ false }
        ensures won { OnOk result (Tells (IsLineOnWon self.now.question path.now text.now keys.now)
            (O.state screen.old).contents (O.state screen.new).contents) }
        ensures unwon { result ≡ Err Stop.NotAccepted →
            Tells (IsLineOnUnwon self.now.question path.now text.now keys.now)
            (O.state screen.old).contents (O.state screen.new).contents }
        ensures nowhere { result ≡ Err Stop.NoLevelThere → LeadNowhere self.now.question text.now keys.now
            × ((O.state screen.new).contents ≡ (O.state screen.old).contents) }
        ensures lacking { (level levels : ℕ) → result ≡ Err (Stop.NoSuchLevel level levels) →
            LacksStart level levels self.now.question text.now keys.now
            × ((O.state screen.new).contents ≡ (O.state screen.old).contents) }
        ensures few { result ≢ Err Stop.TooManyKeys }
        ensures stopped { IfErr result StopsSearchAfter }
    {
        match self.solver.open(self.rt.alloc(), text) {
            Ok(game) => self.tell_led(path, &game, keys, screen),
            Err(Refusal::Memory) => Err(Stop::Run(RunFault::Memory)),
            Err(Refusal::Refused(_)) => {
                self.tell_refused(path, text, screen)?;
                Err(Stop::NotAccepted)
            }
        }
    }

    /// The same of a game whose text has this name.
    #[tactic(auto, using(crate::proofs::LinesOnLed::led_won, crate::proofs::LinesOnLed::led_unwon))]
    fn tell_led<O: ByteWriter>(
        &self,
        path: &str,
        game: &S::Game,
        keys: &[u8],
        screen: &mut O,
    ) -> Result<(), Stop>
        requires well { (O.state screen.old).has_failed ≡ false }
        ensures won { OnOk result (Tells (IsLineOnWon self.now.question path.now (S.Game.text game.now) keys.now)
            (O.state screen.old).contents (O.state screen.new).contents) }
        ensures unwon { result ≡ Err Stop.NotAccepted →
            Tells (IsLineOnUnwon self.now.question path.now (S.Game.text game.now) keys.now)
            (O.state screen.old).contents (O.state screen.new).contents }
        ensures nowhere { result ≡ Err Stop.NoLevelThere →
            LeadNowhere self.now.question (S.Game.text game.now) keys.now
            × ((O.state screen.new).contents ≡ (O.state screen.old).contents) }
        ensures lacking { (level levels : ℕ) → result ≡ Err (Stop.NoSuchLevel level levels) →
            LacksStart level levels self.now.question (S.Game.text game.now) keys.now
            × ((O.state screen.new).contents ≡ (O.state screen.old).contents) }
        ensures few { result ≢ Err Stop.TooManyKeys }
        ensures stopped { IfErr result StopsSearchAfter }
    {
        let mut progress = SearchProgress::new(self.rt, self.is_watched, self.stop_file);
        let mut teller = LevelTeller {
            alloc: self.rt.alloc(),
            game,
            watcher: &mut progress,
            form: self.question.form(),
            name: path,
            limit: self.question.limit,
        };
        let run = RunSoFar {
            level: self.question.level,
            keys,
        };
        match teller.tell_after(run, screen) {
            Ok(ToldAfter::Line { is_won: true }) => Ok(()),
            Ok(ToldAfter::Line { is_won: false }) => Err(Stop::NotAccepted),
            Ok(ToldAfter::NoLevel) => Err(Stop::NoLevelThere),
            Ok(ToldAfter::NoSuchLevel { level, levels }) => Err(Stop::NoSuchLevel {
                level,
                levels,
            }),
            Err(TellFault::Memory) => Err(Stop::Run(RunFault::Memory)),
            Err(TellFault::Write) => Err(Stop::Run(RunFault::Write)),
        }
    }
}

/// The keys of a file, or what a reader has left, where the name is that of standard input.
///
/// # Errors
///
/// `Run` with `Read` where they can't be read; `TooManyKeys` where they are more than `MOST_KEYS` bytes.
fn read_keys<R: Files + AllocGlobal, I: ByteReader>(
    rt: &R,
    path: &str,
    input: &mut I,
) -> Result<Vec<u8>, Stop>
    requires heard { (I.state input.old).has_failed ≡ false }
    ensures read { path.now ≡ codes "-" → IfOk result (λ keys.
        Loses (I.state input.old).remaining (I.state input.new).remaining keys.items) }
    ensures whole { path.now ≡ codes "-" → OnOk result (IsSpent (I.state input.new).remaining) }
    ensures unasked { path.now ≢ codes "-" → input.new ≡ input.old }
    ensures many { path.now ≡ codes "-" → result ≡ Err Stop.TooManyKeys →
        HasGivenTooMany (I.state input.old).remaining (I.state input.new).remaining }
    ensures fault { IfErr result (λ stop. stop ≢ Stop.NotAccepted) }
    ensures unlevelled { IfErr result NamesNoLevel }
    ensures unkeyed { IfErr result IsUnkeyed }
{
    if path == STANDARD_INPUT {
        return read_keys_given(rt.alloc(), input);
    }
    match read_key_file(rt, path) {
        Ok(keys) => if_few(keys),
        Err(error) => Err(stop_for(error, Stop::Run(RunFault::Read))),
    }
}

/// The first bytes of a file, one more than there may be at most.
pub fn read_key_file<R: Files + AllocGlobal>(rt: &R, path: &str) -> std::io::Result<Vec<u8>> {
    let mut keys = Vec::new(rt.alloc());
    fs::open(rt, path)?
        .take(MOST_KEYS as u64 + 1)
        .read_to_end(&mut keys)?;
    Ok(keys)
}

/// Keys, unless there are more than may be read.
fn if_few(keys: Vec<u8>) -> Result<Vec<u8>, Stop>
    ensures few { IfOk result (λ few. length few.items ≤ READ_LIMIT) }
    ensures many { result ≡ Err Stop.TooManyKeys → READ_LIMIT < length keys.items }
    ensures fault { IfErr result (λ stop. stop ≢ Stop.NotAccepted) }
    ensures unlevelled { IfErr result NamesNoLevel }
    ensures unkeyed { IfErr result IsUnkeyed }
{
    if keys.len() <= MOST_KEYS {
        Ok(keys)
    } else {
        Err(Stop::TooManyKeys)
    }
}

/// What a reader has left, unless it is more than may be read.
pub fn read_keys_given<I: ByteReader>(alloc: Global, input: &mut I) -> Result<Vec<u8>, Stop>
    requires heard { (I.state input.old).has_failed ≡ false }
    ensures heard { OnOk result ((I.state input.new).has_failed ≡ false) }
    ensures read { IfOk result (λ keys.
        Loses (I.state input.old).remaining (I.state input.new).remaining keys.items) }
    ensures whole { OnOk result (IsSpent (I.state input.new).remaining) }
    ensures many { result ≡ Err Stop.TooManyKeys →
        HasGivenTooMany (I.state input.old).remaining (I.state input.new).remaining }
    ensures fault { IfErr result (λ stop. stop ≢ Stop.NotAccepted) }
    ensures unlevelled { IfErr result NamesNoLevel }
    ensures unkeyed { IfErr result IsUnkeyed }
{
    let mut keys = Vec::new(alloc);
    let mut piece = [0u8; CALL_LIMIT];
    while keys.len() <= MOST_KEYS {
        let Ok(count) = input.read_some(&mut piece) else {
            return Err(Stop::Run(RunFault::Read));
        };
        if count == 0 {
            return Ok(keys);
        }
        keys.extend_from_slice(&piece[..count])?;
    }
    Err(Stop::TooManyKeys)
}
