//! The command line, as clap reads it.

ghost use Rattle.std.specs.Prelude.{◌≡◌, IfOk, map};
ghost use Rattle.clap.specs.Words.{app_of};
ghost use Rattle.ps_command.specs.ArgumentTable.{rule_for, rule_of_form, rule_with_needs};
ghost use Rattle.ps_command.specs.CommandLines.{IsArgument, bare_player, player, with_rules};

use crate::argument_table::{ARGUMENTS, Argument, Form};
use clap::{Arg, ArgAction, Command};
use std::alloc::{AllocError, Global};

/// The version, which `--version` tells.
const VERSION: &str = "0.3.0";

/// What help says below the arguments.
const AFTER_HELP: &str =
    "Keys: w, a, s, d or the arrows move, x acts, z undoes, r restarts, q quits.
Status: 0 where the run ended, the check accepted, --solve won each level or
--replay the game with each file of keys; 1 at a fault, or where a level isn't
known to be won or a game isn't won; 2 at a bad command line.
A fault of the game is told on standard error, as `line 30: RU7 Unbound`;
--check tells it on standard output.";

/// The command line.
pub fn player_command<'w>(alloc: Global) -> Result<Command<'w>, AllocError>
    ensures is { IfOk result (λ command. app_of command ≡ player) }
{
    with_arguments(alloc, &ARGUMENTS)
}

/// The command line with these arguments.
fn with_arguments<'w>(alloc: Global, arguments: &[Argument]) -> Result<Command<'w>, AllocError>
    ensures { IfOk result (λ command. app_of command ≡ with_rules bare_player (map rule_for arguments.now)) }
{
    let mut command = bare_command(alloc);
    for argument in arguments {
        command = command.arg(argument.built(alloc)?)?;
    }
    Ok(command)
}

/// The command line without an argument.
fn bare_command<'w>(alloc: Global) -> Command<'w>
    ensures { app_of result ≡ bare_player }
{
    Command::new(alloc, "ps_play")
        .version(VERSION)
        .about("Plays a game of PuzzleScript at a terminal")
        .after_help(AFTER_HELP)
}

impl Argument {
    /// The argument for clap, with what may and must stand beside it.
    fn built<'w>(&self, alloc: Global) -> Result<Arg<'w>, AllocError>
        ensures { IfOk result (IsArgument (rule_for self.now)) }
    {
        let arg = self.with_needs(self.formed(alloc)?)?;
        arg.conflicts_with_all(self.excludes)
    }

    /// The argument for clap, with what must stand beside it.
    fn with_needs<'w>(&self, arg: Arg<'w>) -> Result<Arg<'w>, AllocError>
        requires { IsArgument (rule_of_form self.now.name.now self.now.form) arg }
        ensures { IfOk result (IsArgument (rule_with_needs self.now)) }
    {
        match self.needs {
            Some(other) => arg.requires_arg(other),
            None => Ok(arg),
        }
    }

    /// The argument for clap, as it is read.
    fn formed<'w>(&self, alloc: Global) -> Result<Arg<'w>, AllocError>
        ensures { IfOk result (IsArgument (rule_of_form self.now.name.now self.now.form)) }
    {
        let arg = Arg::new(alloc, self.name).help(self.help);
        match self.form {
            Form::File(option) => arg.action(ArgAction::Set).required_unless_present(option),
            Form::Files => Ok(arg.action(ArgAction::Append).num_args(1..)),
            Form::Flag => Ok(arg.long(self.name).action(ArgAction::SetTrue)),
            Form::Value(called) => Ok(
                arg.long(self.name)
                    .value_name(called)
                    .action(ArgAction::Set),
            ),
        }
    }
}
