//! The words of a command line that ask whether levels can be won.

ghost use Rattle.std.specs.Prelude.{◌≡◌, ◌≢◌, ◌⊎◌, [], IfErr, IfOk, IfSome, OnOk, codes, is_some, true};
ghost use Rattle.clap.specs.Words.{first_of};
ghost use Rattle.ps_command.specs.AskedFor.{IsAsked, IsSearch, Solves};
ghost use Rattle.ps_command.specs.Given.{AreWordsToSolve, IsCount, IsCountOr, IsFormOf, IsGameIn, form_for, rows_in};
ghost use Rattle.ps_command.specs.Given.{files_of, text_of, texts_of};
ghost use Rattle.ps_command.specs.LinesAtFault.{IsFaultOfRows};
ghost use Rattle.ps_command.specs.declared.stops.Stop.TheVariants as Stop;

use crate::after_keys::SolveAfter;
use crate::command::{Asked, Solve, all_paths, level_asked};
use crate::files::STANDARD_INPUT;
use crate::given::{value_given, values_given};
use crate::report_options::format_asked;
use crate::stops::Stop;
use clap::ArgMatches;
use ps_report::Format;
use std::alloc::{AllocError, Global};

/// How many states are kept for a level at most, where no other number is given.
const MOST_STATES: u32 = 1_000_000;

/// How many states a word lets be kept, from 1.
fn states_of(word: &str) -> Option<u32>
    ensures { IfSome result (IsCount word.now) }
{
    match word.parse::<u32>() {
        Ok(most) if most > 0 => Some(most),
        _ => None,
    }
}

/// How many states the matches of a command line let be kept for a level.
fn states_asked(matches: &ArgMatches<'_>) -> Result<u32, Stop>
    ensures states { IfOk result (IsCountOr 1000000 (first_of (codes "states") (rows_in matches.now))) }
    ensures refused { IfErr result (IsFaultOfRows (rows_in matches.now)) }
{
    let Some(word) = value_given(matches, "states") else {
        return Ok(MOST_STATES);
    };
    match states_of(word) {
        Some(states) => Ok(states),
        None => Err(Stop::NoStates),
    }
}

/// Whether the matches of a command line ask for objects of JSON. There is no form for editors.
pub fn wants_data(matches: &ArgMatches<'_>) -> Result<bool, Stop>
    ensures form { IfOk result (λ is_data.
        IsFormOf (first_of (codes "format") (rows_in matches.now)) (form_for is_data)) }
    ensures refused { IfErr result (IsFaultOfRows (rows_in matches.now)) }
{
    match format_asked(matches)? {
        Format::Text => Ok(false),
        Format::Json => Ok(true),
        Format::Gnu => Err(Stop::NoFormat),
    }
}

/// What the matches of a command line ask for that searches levels of games, the first of which is in this file.
#[tactic(auto, using(crate::proofs::LinesRefused::misfit_refused))]
pub fn asked_solve<'w>(
    alloc: Global,
    matches: &ArgMatches<'w>,
    path: &'w str,
) -> Result<Asked<'w>, Stop>
    requires game { IsGameIn (rows_in matches.now) path.now }
    requires task { Solves (rows_in matches.now) }
    ensures asked { IfOk result (IsAsked (rows_in matches.now)) }
    ensures refused { IfErr result (IsFaultOfRows (rows_in matches.now)) }
{
    let search = search_asked(matches)?;
    match value_given(matches, "after") {
        Some(keys) => {
            let asked = SolveAfter {
                game: path,
                level: search.level,
                keys,
                limit: search.limit,
                is_data: search.is_data,
                stop_file: search.stop_file,
            };
            let asked = fitting(asked, search.further)?;
            Ok(Asked::SolveAfter(asked))
        }
        None => {
            let paths = all_paths(alloc, path, search.further)?;
            Ok(Asked::Solve(Solve {
                paths,
                level: search.level,
                limit: search.limit,
                is_data: search.is_data,
                stop_file: search.stop_file,
            }))
        }
    }
}

/// What the words of a command line say of a search.
#[derive(Clone, Copy)]
struct SearchWords<'w, 'm> {
    /// The number of the level, and the further texts.
    level: Option<usize>,
    further: &'m [&'w str],
    /// How many states are kept at most.
    limit: u32,
    is_data: bool,
    stop_file: Option<&'w str>,
}

/// What the matches of a command line say of a search.
#[tactic(auto, using(crate::proofs::LinesRefused::level_refused))]
fn search_asked<'w, 'm>(matches: &'m ArgMatches<'w>) -> Result<SearchWords<'w, 'm>, Stop>
    ensures search { IfOk result (λ search. IsSearch (rows_in matches.entry.now) search.level
        (texts_of search.further.now) search.limit search.is_data (text_of search.stop_file)) }
    ensures refused { IfErr result (IsFaultOfRows (rows_in matches.entry.now)) }
{
    let given = level_asked(matches)?;
    let limit = states_asked(matches)?;
    let is_data = wants_data(matches)?;
    let words = words_to_solve(given, values_given(matches, "FURTHER"))?;
    let stop_file = value_given(matches, "stop-file");
    Ok(SearchWords {
        level: words.level,
        further: words.further,
        limit,
        is_data,
        stop_file,
    })
}

/// The words after the first text, and the number of the level.
#[derive(Clone, Copy)]
struct WordsToSolve<'w, 'm> {
    further: &'m [&'w str],
    level: Option<usize>,
}

/// What is meant by the words after the first text. They are further texts; but a number alone is that of the level,
/// unless an option has given it.
#[tactic(auto, using(crate::proofs::WordsToSolve::words_meant, crate::proofs::NumbersRead::number_read))]
fn words_to_solve<'w, 'm>(
    level: Option<usize>,
    further: Option<&'m [&'w str]>,
) -> Result<WordsToSolve<'w, 'm>, Stop>
    ensures words { IfOk result (λ words.
        AreWordsToSolve level (files_of further.entry) words.level (texts_of words.further.now)) }
    ensures refused { IfErr result (λ stop. (stop ≡ Stop.NoLevel) × (is_some further.entry ≡ true)) }
{
    let Some(further) = further else {
        return Ok(WordsToSolve {
            further: &[],
            level,
        });
    };
    if level.is_some() || further.len() != 1 {
        return Ok(WordsToSolve { further, level });
    }
    match further[0].parse::<usize>() {
        Ok(0) => Err(Stop::NoLevel),
        Ok(number) => Ok(WordsToSolve {
            further: &[],
            level: Some(number),
        }),
        Err(_) => Ok(WordsToSolve { further, level }),
    }
}

/// The search from where keys lead, if the words fit together: there is one game, and standard input is one file.
fn fitting<'w>(asked: SolveAfter<'w>, further: &[&str]) -> Result<SolveAfter<'w>, Stop>
    ensures same { IfOk result (λ fits. fits ≡ asked.entry) }
    ensures alone { OnOk result (texts_of further.now ≡ []) }
    ensures one_input { OnOk result (asked.entry.game.now ≡ codes "-" → asked.entry.keys.now ≢ codes "-") }
    ensures refused { IfErr result (λ stop.
        (stop ≡ Stop.OneGame) ⊎ ((stop ≡ Stop.OneInput) × (asked.entry.game.now ≡ codes "-"))) }
{
    if !further.is_empty() {
        return Err(Stop::OneGame);
    }
    if asked.game == STANDARD_INPUT && asked.keys == STANDARD_INPUT {
        return Err(Stop::OneInput);
    }
    Ok(asked)
}
