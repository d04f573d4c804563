//! Why the program ends in place of a run's end, and how that is told.

ghost use Rattle.std.specs.IoError.{error_kind};
ghost use Rattle.std.specs.Prelude.{◌≡◌, ◌≢◌, ◌≤◌, ℕ, List, OnOk, false};
ghost use Rattle.ps_devices.specs.Devices.{Grows};
ghost use Rattle.std.specs.declared.io.ErrorKind.TheVariants.{OutOfMemory};
ghost use Rattle.ps_command.specs.ProgramRuns.{ShowsHelp, TellsStop};
ghost use Rattle.ps_command.specs.Statuses.{IsApart, IsStatusOfLine};
ghost use Rattle.ps_command.specs.Stops.{IsUnplayed, IsUnread};

use clap::error::ErrorKind;
use ps_check::CheckFault;
use ps_devices::{ByteWriter, RunFault, write_whole};
use ps_model::Memory;
use std::alloc::{AllocError, Global};
use std::io;

/// What is told where no fault has the code that is to be explained.
const NO_CODE: &str = "error: no fault has this code: there are TX1, TX2, GM1 to GM6, NA1 to NA16,
RU1 to RU14, LV1 to LV5, WN1 and WN2

For more information, try '--help'.";

/// What is told where no size of a terminal is given.
const NO_SIZE: &str = "error: --view takes rows, x and columns, as 24x80: from 1 to 65535 of each

For more information, try '--help'.";

/// What is told where no number of a level is given.
const NO_LEVEL: &str = "error: --level takes the number of a level, from 1

For more information, try '--help'.";

/// What is told where no number of faults is given.
const NO_LIMIT: &str = "error: --limit takes how many faults are told at most, from 1

For more information, try '--help'.";

/// What is told where no form is given in which texts can be told.
const NO_FORMAT: &str = "error: --format takes text or json, or gnu with --check

For more information, try '--help'.";

/// What is told where no number of states is given.
const NO_STATES: &str =
    "error: --states takes how many states are kept at most, from 1 to 4294967295

For more information, try '--help'.";

/// What is told where keys lead to no level.
const NO_LEVEL_THERE: &str = "the keys lead to no level: to a message, or to the end of the game";

/// What is told where more keys are given to be played before a search than may be read.
const TOO_MANY_KEYS: &str = "too many keys: at most 16777216 bytes of them are read";

/// What is told where there are several texts, or a word after the text that is no number, and one is to be searched.
const ONE_GAME: &str = "error: --after takes one GAME, and perhaps the number of a level

For more information, try '--help'.";

/// What is told where several files or a form stand beside no task for them.
const NO_TASK: &str = "error: several files and --format go with --check, --solve or --replay

For more information, try '--help'.";

/// What is told where a text and keys are both to come from standard input.
const ONE_INPUT: &str = "error: GAME and keys can't both be standard input

For more information, try '--help'.";

/// What is told where a level is given beside streams of keys.
const REPLAYED_LEVEL: &str =
    "error: --replay plays each file of keys from the start of the game: --level can't stand beside it

For more information, try '--help'.";

/// What is told where no stream of keys is named.
const NO_STREAMS: &str = "error: --replay takes GAME, and after it files with keys

For more information, try '--help'.";

/// What is told where an output that is to be shown can't be read.
const NO_OUTPUT: &str =
    "cannot read output: --show takes a file with the output of a run, or - for standard input";

/// Why the program ends in place of a run's end.
#[derive(Drop)]
pub enum Stop {
    /// The command line asks for help or the version, or isn't right.
    CommandLine(clap::Error),
    /// The command line isn't UTF-8: a word with U+FFFD in place of what isn't, if it can be named.
    NotText(String),
    /// The command line asks what a fault is, by a code that no fault has.
    NoSuchCode,
    /// The command line gives no size of a terminal where it is to, or one without a row or a column, or with more than
    /// 65,535 of them.
    NoSize,
    /// The command line gives no number of a level where it is to.
    NoLevel,
    /// The command line gives no number of faults where it is to.
    NoLimit,
    /// The command line gives no form where it is to, or one that isn't of its task.
    NoFormat,
    /// The command line gives no number of states where it is to.
    NoStates,
    /// The command line gives several files, or a form in which something is told, and asks for nothing that has them.
    NoTask,
    /// The command line gives several games where it is to give one.
    OneGame,
    /// The command line asks for a text and for keys from standard input, which gives one of them.
    OneInput,
    /// The command line gives a level beside streams of keys, which are replayed from the start.
    ReplayedLevel,
    /// The command line gives no stream of keys where it is to.
    NoStreams,
    /// The game can't be read.
    Game,
    /// The output that is to be shown can't be read.
    Output,
    /// The game has no level of this number, but so many others.
    NoSuchLevel { level: usize, levels: usize },
    /// The keys that are played before a search lead to no level.
    NoLevelThere,
    /// There are more keys to be played before a search than may be read.
    TooManyKeys,
    /// The text that was checked is no game, or a level isn't known to be won, which was told already.
    NotAccepted,
    /// The run came to a fault, or memory ran out or the screen failed where nothing is played.
    Run(RunFault),
}

impl From<Memory> for Stop {
    ghost use Rattle.ps_command.specs.declared.stops.Stop.TheVariants.{Run};
    ghost use Rattle.ps_devices.specs.declared.players.RunFault.TheVariants.{Memory};

    ghost from_gives = { λ _ stop. stop ≡ Run Memory };

    fn from(_error: Memory) -> Stop {
        Stop::Run(RunFault::Memory)
    }
}

impl From<AllocError> for Stop {
    ghost use Rattle.ps_command.specs.declared.stops.Stop.TheVariants.{Run};
    ghost use Rattle.ps_devices.specs.declared.players.RunFault.TheVariants.{Memory};

    ghost from_gives = { λ _ stop. stop ≡ Run Memory };

    fn from(_error: AllocError) -> Stop {
        Stop::Run(RunFault::Memory)
    }
}

impl From<RunFault> for Stop {
    ghost use Rattle.ps_command.specs.declared.stops.Stop.TheVariants.{Run};

    ghost from_gives = { λ fault stop. stop ≡ Run fault };

    fn from(fault: RunFault) -> Stop {
        Stop::Run(fault)
    }
}

impl From<CheckFault> for Stop {
    ghost use Rattle.ps_command.specs.Statuses.{stop_of_check};

    ghost from_gives = { λ fault stop. stop ≡ stop_of_check fault };

    fn from(fault: CheckFault) -> Stop {
        match fault {
            CheckFault::Memory => Stop::Run(RunFault::Memory),
            CheckFault::Write => Stop::Run(RunFault::Write),
        }
    }
}

impl From<clap::Error> for Stop {
    ghost use Rattle.ps_command.specs.Statuses.{IsStopOfLine};

    ghost from_gives = { λ error stop. IsStopOfLine error stop };

    fn from(error: clap::Error) -> Stop {
        if error.kind() == ErrorKind::OutOfMemory {
            Stop::Run(RunFault::Memory)
        } else {
            Stop::CommandLine(error)
        }
    }
}

/// `other`, where the error isn't that memory ran out.
pub fn stop_for(error: io::Error, other: Stop) -> Stop
    ensures memory { error_kind error ≡ OutOfMemory → result ≡ Stop.Run RunFault.Memory }
    ensures other { error_kind error ≢ OutOfMemory → result ≡ other }
    ensures fault { other ≢ Stop.NotAccepted → result ≢ Stop.NotAccepted }
    ensures apart { IsApart other → IsApart result }
    ensures unread { IsUnread other → IsUnread result }
    ensures unplayed { IsUnplayed other → IsUnplayed result }
{
    if error.kind() == io::ErrorKind::OutOfMemory {
        Stop::Run(RunFault::Memory)
    } else {
        other
    }
}

/// Says why the program ends, and gives its status: 0 after help or the version, which the screen shows, 2 for a bad
/// command line, 1 for a fault. What standard error doesn't take is lost.
pub fn tell<R: AllocGlobal + Eprint, O: ByteWriter>(rt: &R, stop: &Stop, screen: &mut O) -> u8
    requires well { (error : _) → stop.now ≡ Stop.CommandLine error → (O.state screen.old).has_failed ≡ false }
    ensures told { TellsStop stop.now result (O.state screen.old) (O.state screen.new) }
    ensures few { result ≤ 2 }
{
    match stop {
        Stop::CommandLine(error) => return tell_command_line(rt, error, screen),
        Stop::NotText(word) => return tell_not_text(rt, word),
        Stop::NoSuchCode => return tell_wrong_line(rt, NO_CODE),
        Stop::NoSize => return tell_wrong_line(rt, NO_SIZE),
        Stop::NoLevel => return tell_wrong_line(rt, NO_LEVEL),
        Stop::NoLimit => return tell_wrong_line(rt, NO_LIMIT),
        Stop::NoFormat => return tell_wrong_line(rt, NO_FORMAT),
        Stop::NoStates => return tell_wrong_line(rt, NO_STATES),
        Stop::NoTask => return tell_wrong_line(rt, NO_TASK),
        Stop::OneGame => return tell_wrong_line(rt, ONE_GAME),
        Stop::OneInput => return tell_wrong_line(rt, ONE_INPUT),
        Stop::ReplayedLevel => return tell_wrong_line(rt, REPLAYED_LEVEL),
        Stop::NoStreams => return tell_wrong_line(rt, NO_STREAMS),
        Stop::Game => {
            let _ = rt.eprintln("cannot read game");
        }
        Stop::Output => {
            let _ = rt.eprintln(NO_OUTPUT);
        }
        Stop::NoSuchLevel { level, levels } => tell_no_such_level(rt, "", *level, *levels),
        Stop::NoLevelThere => {
            let _ = rt.eprintln(NO_LEVEL_THERE);
        }
        Stop::TooManyKeys => {
            let _ = rt.eprintln(TOO_MANY_KEYS);
        }
        Stop::NotAccepted => {}
        Stop::Run(fault) => {
            let _ = rt.eprintln(*fault);
        }
    }
    1
}

/// Says in a text what is wrong with a command line, and gives the status.
fn tell_wrong_line<R: Eprint>(rt: &R, text: &'static str) -> u8
    ensures { result ≡ 2 }
{
    let _ = rt.eprintln(text);
    2
}

/// Says which word of a command line isn't UTF-8, and gives the status.
fn tell_not_text<R: Eprint>(rt: &R, word: &str) -> u8
    ensures { result ≡ 2 }
{
    let _ = eprintln!(rt; "error: the command line isn't UTF-8: {word:?}");
    2
}

/// Says after a front that the game has no level of this number, and how many it has.
pub fn tell_no_such_level<R: Eprint>(rt: &R, front: &str, level: usize, levels: usize) {
    let word = if levels == 1 { "level" } else { "levels" };
    let _ = eprintln!(rt; "{front}the game has {levels} {word}: there is no level {level}");
}

/// Says what is wrong with a command line, or shows the help or the version that it asks for, and gives the status.
fn tell_command_line<R: AllocGlobal + Eprint, O: ByteWriter>(
    rt: &R,
    error: &clap::Error,
    screen: &mut O,
) -> u8
    requires well { (O.state screen.old).has_failed ≡ false }
    ensures status { IsStatusOfLine error.now result }
    ensures shown { ShowsHelp result (O.state screen.old) (O.state screen.new) }
    ensures few { result ≤ 2 }
{
    if error.use_stderr() {
        let _ = rt.eprint(error);
        return 2;
    }
    match show_text(rt.alloc(), error, screen) {
        Ok(()) => 0,
        Err(fault) => {
            let _ = rt.eprintln(fault);
            1
        }
    }
}

/// Shows the help or the version that a command line asks for.
fn show_text<O: ByteWriter>(
    alloc: Global,
    error: &clap::Error,
    screen: &mut O,
) -> Result<(), RunFault>
    requires well { (O.state screen.old).has_failed ≡ false }
    ensures { OnOk result ((text : List ℕ) × Grows (O.state screen.old).contents (O.state screen.new).contents text) }
{
    let Ok(text) = format!(in alloc; "{error}") else {
        return Err(RunFault::Memory);
    };
    match write_whole(text.as_bytes(), screen) {
        Ok(()) => Ok(()),
        Err(_) => Err(RunFault::Write),
    }
}
