//! The command line.

ghost use Rattle.std.specs.Prelude.{◌≡◌, ◌∷◌, IfErr, IfOk, IfSome, None, Some, codes, map};
ghost use Rattle.clap.specs.Words.{first_of};
ghost use Rattle.ps_command.specs.AskedFor.{Checks, IsAsked, Plays, names_more};
ghost use Rattle.ps_command.specs.CommandLines.{matched};
ghost use Rattle.ps_command.specs.LinesAtFault.{IsFaultOfLine, IsFaultOfRows, IsFaultOfWords};
ghost use Rattle.ps_command.specs.Given.{IsCount, IsGameIn, IsLevelOf, IsSizeOf, keys_file, rows_in, text_of, texts_of};

use crate::after_keys::SolveAfter;
use crate::arguments::player_command;
use crate::files::STANDARD_INPUT;
use crate::given::{is_given, value_given, values_given};
use crate::replay_options::{ReplayStreams, asked_replay};
use crate::report_options::{asked_report, format_asked, tells_more};
use crate::searches::asked_solve;
use crate::sizes::size_of;
use crate::stops::Stop;
use clap::ArgMatches;
use ps_report::How;
use ps_view::Size;
use std::alloc::{AllocError, Global};
use std::convert::AsStr;

/// A game that is to be played.
#[derive(Clone, Copy)]
pub struct Play<'w> {
    /// The file with the game's text, or `-` for standard input.
    pub game: &'w str,
    /// The number of the level at which it begins, from 1, if it doesn't at its start.
    pub level: Option<usize>,
    /// The file with the keys; standard input, where none is named.
    pub keys: Option<&'w str>,
    /// The size of the terminal on which the board is to stay in place, if it is.
    pub size: Option<Size>,
    /// The file that tells the size from then on, if one does.
    pub sizes: Option<&'w str>,
    /// Whether it is told what the rules do for each key.
    pub is_traced: bool,
}

/// The output of a run that is to be shown.
#[derive(Clone, Copy)]
pub struct Show<'w> {
    /// The file with the game's text, or `-` for standard input.
    pub game: &'w str,
    /// The file with the output, or `-` for standard input.
    pub output: &'w str,
    /// The size of the terminal.
    pub size: Size,
    /// The file that tells the size from then on, if one does.
    pub sizes: Option<&'w str>,
}

/// Levels that are to be searched for keys that win.
#[derive(Drop)]
pub struct Solve<'w> {
    /// The files with the texts of games, of which one may be `-` for standard input.
    pub paths: Vec<&'w str>,
    /// The number of the level, from 1, of each game; all levels, where there is none.
    pub level: Option<usize>,
    /// How many states are kept at most for a level.
    pub limit: u32,
    /// Whether objects of JSON are told, and no lines for people.
    pub is_data: bool,
    /// The file that ends the search once it is there, if one is named.
    pub stop_file: Option<&'w str>,
}

/// What a command line asks for.
#[derive(Drop)]
pub enum Asked<'w> {
    /// That a game be played.
    Play(Play<'w>),
    /// Whether the text in this file is a game.
    Check(&'w str),
    /// Whether the text in each of these files is a game.
    CheckAll(Vec<&'w str>),
    /// The same, and below a fault what is to be mended.
    CheckWhy(&'w str),
    CheckAllWhy(Vec<&'w str>),
    /// What a check tells in that way of the text in this file.
    Report(&'w str, How),
    /// What it tells of the text in each of these files.
    Reports(Vec<&'w str>, How),
    /// What the fault of this code is.
    Explanation(&'w str),
    /// What a front end needs to know of the game in this file.
    Description(&'w str),
    /// That the output of a run be shown as a view shows it.
    Show(Show<'w>),
    /// Whether levels can be won, and in how few keys.
    Solve(Solve<'w>),
    /// The same of the level to which keys lead, from there.
    SolveAfter(SolveAfter<'w>),
    /// How far the keys of streams get in a game.
    Replay(ReplayStreams<'w>),
}

/// What the words of a command line ask for, of which the first is the program's own name.
pub fn read_command<'w, S: AsStr>(alloc: Global, words: &'w [S]) -> Result<Asked<'w>, Stop>
    ensures asked { IfOk result (IsAsked (matched (map S.text words.entry.now))) }
    ensures refused { IfErr result (IsFaultOfLine (matched (map S.text words.entry.now))) }
{
    let matches = matches_of(alloc, words)?;
    asked_by(alloc, &matches)
}

/// What clap matches in the words of a command line.
fn matches_of<'w, S: AsStr>(alloc: Global, words: &'w [S]) -> Result<ArgMatches<'w>, Stop>
    ensures matched { IfOk result (λ matches. rows_in matches ≡ matched (map S.text words.entry.now)) }
    ensures refused { IfErr result IsFaultOfWords }
{
    let command = player_command(alloc)?;
    let matches = command.try_get_matches_from(words)?;
    Ok(matches)
}

/// What the matches of a command line ask for.
fn asked_by<'w>(alloc: Global, matches: &ArgMatches<'w>) -> Result<Asked<'w>, Stop>
    ensures asked { IfOk result (IsAsked (rows_in matches.now)) }
    ensures refused { IfErr result (IsFaultOfRows (rows_in matches.now)) }
{
    if let Some(code) = value_given(matches, "explain") {
        return Ok(Asked::Explanation(code));
    }
    let Some(path) = value_given(matches, "GAME") else {
        return Err(Stop::Game);
    };
    // A size that is none is told, whatever the task.
    let size = size_asked(matches)?;
    if is_given(matches, "solve") {
        return asked_solve(alloc, matches, path);
    }
    if is_given(matches, "replay") {
        return asked_replay(alloc, matches, path);
    }
    if is_given(matches, "check") {
        return asked_check(alloc, matches, path);
    }
    if names_more(matches) {
        return Err(Stop::NoTask);
    }
    if is_given(matches, "describe") {
        return Ok(Asked::Description(path));
    }
    match value_given(matches, "show") {
        Some(output) => asked_show(matches, path, output, size),
        None => asked_play(matches, path, size),
    }
}

/// Whether further files are named, or a form in which something is told.
fn names_more(matches: &ArgMatches<'_>) -> bool
    ensures { result ≡ names_more (rows_in matches.now) }
{
    values_given(matches, "FURTHER").is_some() || value_given(matches, "format").is_some()
}

/// What the matches of a command line ask for that shows the output of a run, which wants a size.
fn asked_show<'w>(
    matches: &ArgMatches<'w>,
    path: &'w str,
    output: &'w str,
    size: Option<Size>,
) -> Result<Asked<'w>, Stop>
    requires game { IsGameIn (rows_in matches.now) path.now }
    requires task { Plays (rows_in matches.now) }
    requires output { first_of (codes "show") (rows_in matches.now) ≡ Some output.now }
    requires size { IsSizeOf (first_of (codes "view") (rows_in matches.now)) size }
    ensures asked { IfOk result (IsAsked (rows_in matches.now)) }
    ensures refused { IfErr result (IsFaultOfRows (rows_in matches.now)) }
{
    let Some(size) = size else {
        return Err(Stop::NoSize);
    };
    Ok(Asked::Show(Show {
        game: path,
        output,
        size,
        sizes: value_given(matches, "sizes"),
    }))
}

/// What the matches of a command line ask for that plays a game.
fn asked_play<'w>(
    matches: &ArgMatches<'w>,
    path: &'w str,
    size: Option<Size>,
) -> Result<Asked<'w>, Stop>
    requires game { IsGameIn (rows_in matches.now) path.now }
    requires task { Plays (rows_in matches.now) }
    requires shown { first_of (codes "show") (rows_in matches.now) ≡ None }
    requires size { IsSizeOf (first_of (codes "view") (rows_in matches.now)) size }
    ensures asked { IfOk result (IsAsked (rows_in matches.now)) }
    ensures refused { IfErr result (IsFaultOfRows (rows_in matches.now)) }
{
    let level = level_asked(matches)?;
    let keys = keys_named(value_given(matches, "keys"));
    let sizes = value_given(matches, "sizes");
    Ok(Asked::Play(Play {
        game: path,
        level,
        keys,
        size,
        sizes,
        is_traced: is_given(matches, "trace"),
    }))
}

/// The file with the keys; none where it is standard input, from which they come anyway.
fn keys_named<'w>(word: Option<&'w str>) -> Option<&'w str>
    ensures { text_of result ≡ keys_file (text_of word.entry) }
{
    match word {
        Some(path) => {
            if path == STANDARD_INPUT {
                None
            } else {
                Some(path)
            }
        }
        None => None,
    }
}

/// The size of the terminal that the matches of a command line give.
fn size_asked(matches: &ArgMatches<'_>) -> Result<Option<Size>, Stop>
    ensures size { IfOk result (IsSizeOf (first_of (codes "view") (rows_in matches.now))) }
    ensures refused { IfErr result (IsFaultOfRows (rows_in matches.now)) }
{
    let Some(word) = value_given(matches, "view") else {
        return Ok(None);
    };
    match size_of(word) {
        Some(size) => Ok(Some(size)),
        None => Err(Stop::NoSize),
    }
}

/// The number of the level that the matches of a command line give.
pub fn level_asked(matches: &ArgMatches<'_>) -> Result<Option<usize>, Stop>
    ensures level { IfOk result (IsLevelOf (first_of (codes "level") (rows_in matches.now))) }
    ensures refused { IfErr result (IsFaultOfRows (rows_in matches.now)) }
{
    let Some(word) = value_given(matches, "level") else {
        return Ok(None);
    };
    match level_of(word) {
        Some(level) => Ok(Some(level)),
        None => Err(Stop::NoLevel),
    }
}

/// The number of a level that a word gives, from 1.
fn level_of(word: &str) -> Option<usize>
    ensures { IfSome result (IsCount word.now) }
{
    match word.parse::<usize>() {
        Ok(level) if level > 0 => Some(level),
        _ => None,
    }
}

/// What the matches of a command line ask for that checks texts, the first of which is in this file.
fn asked_check<'w>(
    alloc: Global,
    matches: &ArgMatches<'w>,
    path: &'w str,
) -> Result<Asked<'w>, Stop>
    requires game { IsGameIn (rows_in matches.now) path.now }
    requires task { Checks (rows_in matches.now) }
    ensures asked { IfOk result (IsAsked (rows_in matches.now)) }
    ensures refused { IfErr result (IsFaultOfRows (rows_in matches.now)) }
{
    let format = format_asked(matches)?;
    if tells_more(matches, format) {
        return asked_report(alloc, matches, path, format);
    }
    let why = is_given(matches, "why");
    let Some(further) = values_given(matches, "FURTHER") else {
        return Ok(if why {
            Asked::CheckWhy(path)
        } else {
            Asked::Check(path)
        });
    };
    let paths = all_paths(alloc, path, further)?;
    Ok(if why {
        Asked::CheckAllWhy(paths)
    } else {
        Asked::CheckAll(paths)
    })
}

/// A first path and all further ones.
pub fn all_paths<'w>(
    alloc: Global,
    first: &'w str,
    further: &[&'w str],
) -> Result<Vec<&'w str>, AllocError>
    ensures { IfOk result (λ paths. texts_of paths.items ≡ first.entry.now ∷ texts_of further.now) }
{
    let mut paths = Vec::new(alloc);
    paths.push(first)?;
    paths.extend_from_slice(further)?;
    Ok(paths)
}
