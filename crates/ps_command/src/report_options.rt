//! The options of a check that tells more than whether a text is a game, or its first fault.

ghost use Rattle.std.specs.Prelude.{◌≡◌, IfErr, IfOk, IfSome, codes, true};
ghost use Rattle.clap.specs.Words.{first_of};
ghost use Rattle.ps_command.specs.AskedFor.{Checks, IsAsked, IsHow, IsMost, tells_more};
ghost use Rattle.ps_command.specs.Given.{IsCount, IsFormOf, IsGameIn, is_given, rows_in, word_of};
ghost use Rattle.ps_command.specs.LinesAtFault.{IsFaultOfRows};

use crate::command::{Asked, all_paths};
use crate::given::{is_given, value_given, values_given};
use crate::stops::Stop;
use clap::ArgMatches;
use ps_report::{Detail, Format, How};
use std::alloc::{AllocError, Global};

/// The number of faults of a text that are told at most, where no other is given.
const MOST_FAULTS: u32 = 100;

/// The form that a word asks for.
fn format_of(word: &str) -> Option<Format>
    ensures { IfSome result (λ format. word.now ≡ word_of format) }
{
    match word {
        "text" => Some(Format::Text),
        "gnu" => Some(Format::Gnu),
        "json" => Some(Format::Json),
        _ => None,
    }
}

/// The form in which the matches of a command line ask for what is told.
pub fn format_asked(matches: &ArgMatches<'_>) -> Result<Format, Stop>
    ensures form { IfOk result (IsFormOf (first_of (codes "format") (rows_in matches.now))) }
    ensures refused { IfErr result (IsFaultOfRows (rows_in matches.now)) }
{
    let Some(word) = value_given(matches, "format") else {
        return Ok(Format::Text);
    };
    match format_of(word) {
        Some(format) => Ok(format),
        None => Err(Stop::NoFormat),
    }
}

/// Whether the matches of a command line ask for a check that tells more than the first fault, or of games as well, or
/// not for people.
pub fn tells_more(matches: &ArgMatches<'_>, format: Format) -> bool
    ensures { result ≡ tells_more (rows_in matches.now) format }
{
    is_given(matches, "all") || is_given(matches, "warn") || format != Format::Text
}

/// How many faults a word lets be told, from 1.
fn limit_of(word: &str) -> Option<u32>
    ensures { IfSome result (IsCount word.now) }
{
    match word.parse::<u32>() {
        Ok(most) if most > 0 => Some(most),
        _ => None,
    }
}

/// Of how many lines a fault is told at most: of one, unless all faults are asked for.
fn most_asked(matches: &ArgMatches<'_>) -> Result<u32, Stop>
    ensures most { IfOk result (IsMost (rows_in matches.now) (is_given (codes "all") (rows_in matches.now))) }
    ensures refused { IfErr result (IsFaultOfRows (rows_in matches.now)) }
{
    if !is_given(matches, "all") {
        return Ok(1);
    }
    let Some(word) = value_given(matches, "limit") else {
        return Ok(MOST_FAULTS);
    };
    match limit_of(word) {
        Some(most) => Ok(most),
        None => Err(Stop::NoLimit),
    }
}

/// How a check tells of texts that the matches of a command line ask for, of one or of several.
fn how_asked(matches: &ArgMatches<'_>, format: Format, is_named: bool) -> Result<How, Stop>
    requires format { IsFormOf (first_of (codes "format") (rows_in matches.now)) format }
    requires more { tells_more (rows_in matches.now) format ≡ true }
    ensures how { IfOk result (IsHow (rows_in matches.now) is_named) }
    ensures refused { IfErr result (IsFaultOfRows (rows_in matches.now)) }
{
    let most = most_asked(matches)?;
    let detail = if is_given(matches, "why") {
        Detail::Why
    } else {
        Detail::Line
    };
    Ok(How {
        format,
        is_named,
        detail,
        most,
        counts: is_given(matches, "all"),
        warns: is_given(matches, "warn"),
        strict: is_given(matches, "strict"),
    })
}

/// What the matches of a command line ask for that tells more than a check for people does, of texts of which the first
/// is in this file.
pub fn asked_report<'w>(
    alloc: Global,
    matches: &ArgMatches<'w>,
    path: &'w str,
    format: Format,
) -> Result<Asked<'w>, Stop>
    requires game { IsGameIn (rows_in matches.now) path.now }
    requires task { Checks (rows_in matches.now) }
    requires format { IsFormOf (first_of (codes "format") (rows_in matches.now)) format }
    requires more { tells_more (rows_in matches.now) format ≡ true }
    ensures asked { IfOk result (IsAsked (rows_in matches.now)) }
    ensures refused { IfErr result (IsFaultOfRows (rows_in matches.now)) }
{
    let Some(further) = values_given(matches, "FURTHER") else {
        return Ok(Asked::Report(path, how_asked(matches, format, false)?));
    };
    let how = how_asked(matches, format, true)?;
    let paths = all_paths(alloc, path, further)?;
    Ok(Asked::Reports(paths, how))
}
