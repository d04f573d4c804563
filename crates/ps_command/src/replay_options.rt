//! The words of a command line that ask how far recorded keys get.

ghost use Rattle.std.specs.List.{list_any};
ghost use Rattle.std.specs.Prelude.{◌≡◌, IfErr, IfOk, codes};
ghost use Rattle.ps_command.specs.LinesAtFault.{IsFaultOfRows};
ghost use Rattle.ps_command.specs.AskedFor.{IsAsked, Replays};
ghost use Rattle.ps_command.specs.Given.{IsGameIn, further_in, is_input, rows_in, texts_of};

use crate::command::Asked;
use crate::files::STANDARD_INPUT;
use crate::given::{value_given, values_given};
use crate::searches::wants_data;
use crate::stops::Stop;
use clap::ArgMatches;
use std::alloc::{AllocError, Global};

/// Streams of keys that are to be replayed in a game.
#[derive(Drop)]
pub struct ReplayStreams<'w> {
    /// The file with the game's text, or `-` for standard input.
    pub game: &'w str,
    /// The files with the keys, of which one may be `-`, if the game isn't.
    pub streams: Vec<&'w str>,
    /// Whether objects of JSON are told, and no lines for people.
    pub is_data: bool,
}

/// Whether one of these words stands for standard input.
fn has_input(words: &[&str]) -> bool
    ensures { result ≡ list_any (λ word. is_input word.now) words.now }
{
    words.iter().any(|word| *word == STANDARD_INPUT)
}

/// The files with keys that stand after `GAME`.
fn streams_given<'w>(alloc: Global, matches: &ArgMatches<'w>) -> Result<Vec<&'w str>, AllocError>
    ensures { IfOk result (λ streams. texts_of streams.items ≡ further_in (rows_in matches.now)) }
{
    match values_given(matches, "FURTHER") {
        Some(words) => Vec::from_slice(alloc, words),
        None => Ok(Vec::new(alloc)),
    }
}

/// What the matches of a command line ask for that replays streams of keys in the game of this file, if the words fit
/// together: standard input is one file.
pub fn asked_replay<'w>(
    alloc: Global,
    matches: &ArgMatches<'w>,
    game: &'w str,
) -> Result<Asked<'w>, Stop>
    requires game { IsGameIn (rows_in matches.now) game.now }
    requires task { Replays (rows_in matches.now) }
    ensures asked { IfOk result (IsAsked (rows_in matches.now)) }
    ensures refused { IfErr result (IsFaultOfRows (rows_in matches.now)) }
{
    if value_given(matches, "level").is_some() {
        return Err(Stop::ReplayedLevel);
    }
    let is_data = wants_data(matches)?;
    let streams = streams_given(alloc, matches)?;
    if streams.is_empty() {
        return Err(Stop::NoStreams);
    }
    if game == STANDARD_INPUT && has_input(&streams) {
        return Err(Stop::OneInput);
    }
    Ok(Asked::Replay(ReplayStreams {
        game,
        streams,
        is_data,
    }))
}
