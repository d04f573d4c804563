//! What is done for a command line.

ghost use Rattle.std.specs.Prelude.{◌≡◌, ◌≢◌, ◌+◌, ◌<◌, ◌≤◌, ℕ, false, true, is_some, length, map, string_bytes};
ghost use Rattle.std.specs.Prelude.{Err, IfErr, IfOk, IfSome, None, Ok, OnOk};
ghost use Rattle.ps_model.specs.game.Games.{game};
ghost use Rattle.ps_check.specs.Checks.{check_line, named_line};
ghost use Rattle.ps_command.specs.Details.{TellsOn};
ghost use Rattle.ps_command.specs.ProgramRuns.{Denies, Does, EndsGiven, EndsWords, FindsNoLevel};
ghost use Rattle.ps_command.specs.ProgramRuns.{IsRunOfProgram, LacksLevelOf, stop_of_words};
ghost use Rattle.ps_command.specs.Stops.{StopsCheck, StopsExplanation, StopsTask};
ghost use Rattle.ps_command.specs.Told.{TellsOf, TellsOfFiles, TellsOfGame, TellsOfGames, TellsOfRefused};
ghost use Rattle.ps_command.specs.Told.{TellsSomeLine};
ghost use Rattle.ps_command.specs.declared.stops.Stop.TheVariants as Stop;
ghost use Rattle.ps_devices.specs.Devices.{Grows};

use crate::after_keys::solve_after_asked;
use crate::command::{Asked, read_command};
use crate::descriptions::describe_game;
use crate::details::show_detail;
use crate::engine::Engine;
use crate::files::{read_one, read_text};
use crate::playing::play_asked;
use crate::replaying::replay_asked;
use crate::reporting::{report_alone, report_texts};
use crate::showing::show_asked;
use crate::solving::solve_asked;
use crate::stops::{Stop, tell};
use crate::tracing::trace_asked;
use crate::words::NoWords;
use ps_answers::LevelSolver;
use ps_check::{check, check_named};
use ps_devices::{ByteReader, ByteWriter, Player, RunFault, write_whole};
use ps_records::Replayer;
use ps_report::{Detail, explanation};
use ps_tracers::Tracing;
use std::alloc::Global;
use std::rt::Files;
use std::time::Clock;

/// Does what the words of a command line ask for, with keys from `keys`, unless they name a file of keys, and frames to
/// `screen`, by `engine`. Gives the status to end with: 0 where a run ended, a text was accepted, each level can be
/// won, each stream of keys wins or what was asked for was told, 1 at a fault or where a level isn't known to be won or
/// a game isn't won, and 2 at a bad command line. A fault and a bad command line are told on standard error; all else
/// that is told goes to `screen`, but for the lines of a trace.
pub fn run_command_line<
    R: Files + AllocGlobal + Clock + Eprint,
    P: Player,
    S: LevelSolver,
    T: Tracing,
    Y: Replayer,
    I: ByteReader,
    O: ByteWriter,
>(
    rt: &R,
    engine: &Engine<'_, P, S, T, Y>,
    words: Result<Vec<String>, NoWords>,
    keys: &mut I,
    screen: &mut O,
) -> u8
    requires heard { (I.state keys.old).has_failed ≡ false }
    requires well { (O.state screen.old).has_failed ≡ false }
    ensures run { IsRunOfProgram words result (I.state keys.old) (I.state keys.new) (O.state screen.old)
        (O.state screen.new) }
    ensures few { result ≤ 2 }
{
    match act(rt, engine, words, keys, screen) {
        Ok(()) => 0,
        Err(stop) => tell(rt, &stop, screen),
    }
}

/// What stops the program where it has no words.
fn stop_of_words(why: NoWords) -> Stop
    ensures { result ≡ stop_of_words why }
{
    match why {
        NoWords::NotText(word) => Stop::NotText(word),
        NoWords::Memory => Stop::Run(RunFault::Memory),
    }
}

/// Does what words ask for, if they are there and are right.
fn act<
    R: Files + AllocGlobal + Clock + Eprint,
    P: Player,
    S: LevelSolver,
    T: Tracing,
    Y: Replayer,
    I: ByteReader,
    O: ByteWriter,
>(
    rt: &R,
    engine: &Engine<'_, P, S, T, Y>,
    words: Result<Vec<String>, NoWords>,
    keys: &mut I,
    screen: &mut O,
) -> Result<(), Stop>
    requires heard { (I.state keys.old).has_failed ≡ false }
    requires well { (O.state screen.old).has_failed ≡ false }
    ensures ends { EndsWords words result (I.state keys.old) (I.state keys.new) (O.state screen.old)
        (O.state screen.new) }
    ensures well { (error : _) → result ≡ Err (Stop.CommandLine error) → (O.state screen.new).has_failed ≡ false }
{
    match words {
        Ok(words) => act_on(rt, engine, &words, keys, screen),
        Err(why) => Err(stop_of_words(why)),
    }
}

/// Does what words ask for, if they are right.
#[tactic(auto, using(crate::proofs::LinesObeyed::line_refused, crate::proofs::LinesObeyed::line_obeyed))]
fn act_on<
    R: Files + AllocGlobal + Clock + Eprint,
    P: Player,
    S: LevelSolver,
    T: Tracing,
    Y: Replayer,
    I: ByteReader,
    O: ByteWriter,
>(
    rt: &R,
    engine: &Engine<'_, P, S, T, Y>,
    words: &[String],
    keys: &mut I,
    screen: &mut O,
) -> Result<(), Stop>
    requires heard { (I.state keys.old).has_failed ≡ false }
    requires well { (O.state screen.old).has_failed ≡ false }
    ensures ends { EndsGiven (map string_bytes words.now) result (I.state keys.old) (I.state keys.new)
        (O.state screen.old) (O.state screen.new) }
    ensures well { (error : _) → result ≡ Err (Stop.CommandLine error) → (O.state screen.new).has_failed ≡ false }
{
    match read_command(rt.alloc(), words) {
        Ok(asked) => obey(rt, engine, &asked, keys, screen),
        Err(stop) => Err(stop),
    }
}

/// Does a task: plays a game, checks one, searches its levels, replays recorded keys, or says what a fault is.
fn obey<
    R: Files + AllocGlobal + Clock + Eprint,
    P: Player,
    S: LevelSolver,
    T: Tracing,
    Y: Replayer,
    I: ByteReader,
    O: ByteWriter,
>(
    rt: &R,
    engine: &Engine<'_, P, S, T, Y>,
    asked: &Asked<'_>,
    keys: &mut I,
    screen: &mut O,
) -> Result<(), Stop>
    requires heard { (I.state keys.old).has_failed ≡ false }
    requires well { (O.state screen.old).has_failed ≡ false }
    ensures done { OnOk result (Does asked.now (I.state keys.old) (I.state keys.new) (O.state screen.old)
        (O.state screen.new)) }
    ensures stopped { IfErr result (StopsTask asked.now (O.state screen.new).has_failed) }
    ensures denied { result ≡ Err Stop.NotAccepted → Denies asked.now (I.state keys.old) (I.state keys.new)
        (O.state screen.old) (O.state screen.new) }
    ensures nowhere { result ≡ Err Stop.NoLevelThere → FindsNoLevel asked.now (I.state keys.old) (I.state keys.new)
        (O.state screen.old) (O.state screen.new) }
    ensures lacking { (level levels : ℕ) → result ≡ Err (Stop.NoSuchLevel level levels) →
        LacksLevelOf level levels asked.now (I.state keys.old) (I.state keys.new) (O.state screen.old)
        (O.state screen.new) }
{
    match asked {
        Asked::Explanation(code) => explain(rt.alloc(), *code, screen),
        Asked::Check(path) => check_text(rt, *path, Detail::Line, keys, screen),
        Asked::CheckWhy(path) => check_text(rt, *path, Detail::Why, keys, screen),
        Asked::CheckAll(paths) => check_texts(rt, paths, Detail::Line, keys, screen),
        Asked::CheckAllWhy(paths) => check_texts(rt, paths, Detail::Why, keys, screen),
        Asked::Report(path, how) => report_alone(rt, *path, *how, keys, screen),
        Asked::Reports(paths, how) => report_texts(rt, paths, *how, keys, screen),
        Asked::Description(path) => describe_game(rt, *path, keys, screen),
        Asked::Show(asked) => show_asked(rt, *asked, keys, screen),
        Asked::Solve(asked) => solve_asked(rt, engine, asked, keys, screen),
        Asked::SolveAfter(asked) => solve_after_asked(rt, engine, *asked, keys, screen),
        Asked::Replay(asked) => replay_asked(rt, engine.replayer, asked, keys, screen),
        Asked::Play(asked) if asked.is_traced => {
            trace_asked(rt, engine.tracing, *asked, keys, screen)
        }
        Asked::Play(asked) => play_asked(rt, engine.player, *asked, keys, screen),
    }
}

/// Says on the screen whether the text of a file is a game.
#[tactic(auto, using(crate::proofs::TasksStopped::unread_check))]
fn check_text<R: Files + AllocGlobal, I: ByteReader, O: ByteWriter>(
    rt: &R,
    path: &str,
    detail: Detail,
    input: &mut I,
    screen: &mut O,
) -> Result<(), Stop>
    requires heard { (I.state input.old).has_failed ≡ false }
    requires well { (O.state screen.old).has_failed ≡ false }
    ensures told { OnOk result (TellsOfGame path.now (I.state input.old).remaining (I.state input.new).remaining
        (O.state screen.old).contents (O.state screen.new).contents) }
    ensures refused { result ≡ Err Stop.NotAccepted →
        TellsOfRefused detail path.now (I.state input.old).remaining (I.state input.new).remaining
        (O.state screen.old).contents (O.state screen.new).contents }
    ensures stopped { IfErr result (StopsCheck (O.state screen.new).has_failed) }
{
    let text = read_text(rt, path, input)?;
    if check_alone(rt.alloc(), &text, detail, screen)? {
        Ok(())
    } else {
        Err(Stop::NotAccepted)
    }
}

/// Says of a text on the screen whether it is a game, and answers that.
#[tactic(auto, using(crate::proofs::TasksStopped::check_stopped))]
pub fn check_alone<O: ByteWriter>(
    alloc: Global,
    text: &[u8],
    detail: Detail,
    screen: &mut O,
) -> Result<bool, Stop>
    requires well { (O.state screen.old).has_failed ≡ false }
    ensures is { IfOk result (λ accepted. accepted ≡ is_some (game text.now)) }
    ensures well { OnOk result ((O.state screen.new).has_failed ≡ false) }
    ensures accepted { IfOk result (λ accepted. accepted ≡ true
        → Grows (O.state screen.old).contents (O.state screen.new).contents (check_line text.now)) }
    ensures told { let line = check_line text.now in OnOk result
        (TellsOn detail text.now line (O.state screen.old).contents (O.state screen.new).contents) }
    ensures fault { IfErr result (λ stop. stop ≢ Stop.NotAccepted) }
    ensures stopped { IfErr result (StopsCheck (O.state screen.new).has_failed) }
{
    if check(alloc, text, screen)? {
        return Ok(true);
    }
    show_detail(alloc, text, detail, screen)?;
    Ok(false)
}

/// Of how many files it was said on the screen that their text is a game, of how many which fault it has, and of how
/// many, on standard error, that they can't be read.
#[derive(Clone, Copy)]
pub struct Said {
    pub games: usize,
    pub faulty: usize,
    pub unread: usize,
}

/// Says of each of several files on the screen whether its text is a game. It is well where all are: then the line of
/// each was written, in their order, and nothing else.
fn check_texts<R: Files + AllocGlobal + Eprint, I: ByteReader, O: ByteWriter>(
    rt: &R,
    paths: &[&str],
    detail: Detail,
    input: &mut I,
    screen: &mut O,
) -> Result<(), Stop>
    requires heard { (I.state input.old).has_failed ≡ false }
    requires well { (O.state screen.old).has_failed ≡ false }
    ensures games { OnOk result (TellsOfGames (map (λ path. path.now) paths.now)
        (O.state screen.old).contents (O.state screen.new).contents) }
    ensures files { result ≡ Err Stop.NotAccepted → TellsOfFiles detail (map (λ path. path.now) paths.now)
        (O.state screen.old).contents (O.state screen.new).contents }
    ensures stopped { IfErr result (StopsCheck (O.state screen.new).has_failed) }
{
    let said = check_each(rt, paths, detail, input, screen)?;
    if said.faulty == 0 && said.unread == 0 {
        Ok(())
    } else {
        Err(Stop::NotAccepted)
    }
}

/// Says of each of several files on the screen whether its text is a game. Something is said of each: one that is no
/// game, or that can't be read, doesn't end the check.
fn check_each<R: Files + AllocGlobal + Eprint, I: ByteReader, O: ByteWriter>(
    rt: &R,
    paths: &[&str],
    detail: Detail,
    input: &mut I,
    screen: &mut O,
) -> Result<Said, Stop>
    requires heard { (I.state input.old).has_failed ≡ false }
    requires well { (O.state screen.old).has_failed ≡ false }
    ensures each { IfOk result (λ said. said.games + (said.faulty + said.unread) ≡ length paths.now) }
    ensures written { IfOk result (λ said.
        (O.state screen.old).calls + (said.games + said.faulty) ≤ (O.state screen.new).calls) }
    ensures games { IfOk result (λ said. said.games ≡ length paths.now → TellsOfGames (map (λ path. path.now) paths.now)
        (O.state screen.old).contents (O.state screen.new).contents) }
    ensures files { OnOk result (TellsOfFiles detail (map (λ path. path.now) paths.now)
        (O.state screen.old).contents (O.state screen.new).contents) }
    ensures fault { IfErr result (λ stop. stop ≢ Stop.NotAccepted) }
    ensures stopped { IfErr result (StopsCheck (O.state screen.new).has_failed) }
{
    let mut games = 0;
    let mut faulty = 0;
    let mut unread = 0;
    for path in paths {
        match check_one(rt, *path, detail, input, screen)? {
            Some(true) => games += 1,
            Some(false) => faulty += 1,
            None => unread += 1,
        }
    }
    Ok(Said {
        games,
        faulty,
        unread,
    })
}

/// Says of one of several files on the screen whether its text is a game, and answers that. Nothing is answered of a
/// file that can't be read: standard error names it. Standard input that can't be read ends the check.
#[tactic(auto, using(crate::proofs::TasksStopped::unread_check))]
fn check_one<R: Files + AllocGlobal + Eprint, I: ByteReader, O: ByteWriter>(
    rt: &R,
    path: &str,
    detail: Detail,
    input: &mut I,
    screen: &mut O,
) -> Result<Option<bool>, Stop>
    requires heard { (I.state input.old).has_failed ≡ false }
    requires well { (O.state screen.old).has_failed ≡ false }
    ensures heard { OnOk result ((I.state input.new).has_failed ≡ false) }
    ensures well { OnOk result ((O.state screen.new).has_failed ≡ false) }
    ensures on { OnOk result ((O.state screen.old).calls ≤ (O.state screen.new).calls) }
    ensures written { IfOk result (λ said. IfSome said (λ _.
        (O.state screen.old).calls < (O.state screen.new).calls)) }
    ensures unread { result ≡ Ok None → (O.state screen.new).contents ≡ (O.state screen.old).contents }
    ensures told { IfOk result (λ said. IfSome said (λ accepted.
        TellsOf detail path.now accepted (O.state screen.old).contents (O.state screen.new).contents)) }
    ensures fault { IfErr result (λ stop. stop ≢ Stop.NotAccepted) }
    ensures stopped { IfErr result (StopsCheck (O.state screen.new).has_failed) }
{
    let Some(text) = read_one(rt, path, input)? else {
        return Ok(None);
    };
    let accepted = check_bytes(rt.alloc(), path, &text, detail, screen)?;
    Ok(Some(accepted))
}

/// Says of the text of one of several files whether it is a game, and answers that.
#[tactic(auto, using(crate::proofs::TasksStopped::check_stopped))]
fn check_bytes<O: ByteWriter>(
    alloc: Global,
    path: &str,
    text: &[u8],
    detail: Detail,
    screen: &mut O,
) -> Result<bool, Stop>
    requires well { (O.state screen.old).has_failed ≡ false }
    ensures well { OnOk result ((O.state screen.new).has_failed ≡ false) }
    ensures written { OnOk result ((O.state screen.old).calls < (O.state screen.new).calls) }
    ensures accepted { IfOk result (λ accepted. accepted ≡ is_some (game text.now)) }
    ensures told { let line = named_line path.now text.now in OnOk result
        (TellsOn detail text.now line (O.state screen.old).contents (O.state screen.new).contents) }
    ensures alone { IfOk result (λ accepted. accepted ≡ true
        → Grows (O.state screen.old).contents (O.state screen.new).contents (named_line path.now text.now)) }
    ensures fault { IfErr result (λ stop. stop ≢ Stop.NotAccepted) }
    ensures stopped { IfErr result (StopsCheck (O.state screen.new).has_failed) }
{
    if check_named(alloc, path, text, screen)? {
        return Ok(true);
    }
    show_detail(alloc, text, detail, screen)?;
    Ok(false)
}

/// Writes what the fault of a code is.
fn explain<O: ByteWriter>(alloc: Global, code: &str, screen: &mut O) -> Result<(), Stop>
    requires well { (O.state screen.old).has_failed ≡ false }
    ensures told { OnOk result (TellsSomeLine (O.state screen.old).contents (O.state screen.new).contents) }
    ensures stopped { IfErr result (StopsExplanation (O.state screen.new).has_failed) }
{
    let Some(sentence) = explanation(code) else {
        return Err(Stop::NoSuchCode);
    };
    let line = format!(in alloc; "{sentence}\n")?;
    match write_whole(line.as_bytes(), screen) {
        Ok(()) => Ok(()),
        Err(_) => Err(Stop::Run(RunFault::Write)),
    }
}
