//! The directions and the commands of a rule.

ghost use Rattle.std.specs.Prelude.{◌≡◌, ◌++◌, ◌∷◌, [], IfOk, OnOk, List as Sequence, ℕ, Option, None, fold, filter};
ghost use Rattle.std.specs.Prelude.{if◌then◌else◌};
ghost use Rattle.ps_model.specs.text.LineNumbers.{HasLine, line_at};
ghost use Rattle.ps_model.specs.rules.RuleShape.{has_kind};
ghost use Rattle.ps_model.specs.rules.RuleTree.{gives, directions_given, with_command, text_of, commands_of};
ghost use Rattle.ps_model.specs.rules.SourceRules.{no_commands};
ghost use Rattle.ps_rules.specs.Asked.{asked_shown};
ghost use Rattle.ps_program.specs.CommandsShown.{commands_shown};
ghost use Rattle.ps_rules.specs.SymbolsShown.{symbol_shown, tokens_shown};

use crate::kinds::{Kind, has_kind};
use crate::symbols::{Command, Symbol, Token};
use ps_model::{Direction, Memory};
use ps_program::Commands;
use ps_text::{List, Source, Text};
use std::alloc::Global;

/// Puts a direction last, if a word gives it.
fn push_given(
    given: &mut Vec<Direction>,
    tokens: &[Token<'_>],
    direction: Direction,
) -> Result<(), Memory>
    ensures { OnOk result (given.new.items
        ≡ given.old.items
        ++ filter (λ direction. has_kind (gives direction) (tokens_shown tokens.now)) (direction ∷ [])) }
{
    if !has_kind(Kind::Gives(direction), tokens) {
        return Ok(());
    }
    given.push(direction)?;
    Ok(())
}

/// The directions that the words before the rows give, always in the order up, down, left, right.
pub fn directions_given(alloc: Global, tokens: &[Token<'_>]) -> Result<List<Direction>, Memory>
    ensures { IfOk result (λ given. given ≡ directions_given (tokens_shown tokens.now)) }
{
    let mut given = Vec::new(alloc);
    push_given(&mut given, tokens, Direction::Up)?;
    push_given(&mut given, tokens, Direction::Down)?;
    push_given(&mut given, tokens, Direction::Left)?;
    push_given(&mut given, tokens, Direction::Right)?;
    Ok(List::from_vec(given))
}

/// The commands that words ask for.
#[derive(Clone, Copy)]
struct Asked {
    cancel: bool,
    restart: bool,
    again: bool,
    checkpoint: bool,
    win: bool,
    message: bool,
}

impl Asked {
    /// These commands, and the one that a word asks for, if it is a command.
    fn with(self, symbol: Symbol<'_>) -> Asked
        ensures { (text : Option (Sequence ℕ)) → asked_shown text result
            ≡ with_command text (asked_shown text self) (symbol_shown symbol.entry) }
    {
        let Symbol::Asks(command) = symbol else {
            return self;
        };
        let mut asked = self;
        match command {
            Command::Cancel => asked.cancel = true,
            Command::Restart => asked.restart = true,
            Command::Again => asked.again = true,
            Command::Checkpoint => asked.checkpoint = true,
            Command::Win => asked.win = true,
            Command::Message => asked.message = true,
            Command::Sound => {}
        }
        asked
    }
}

/// The commands that words ask for.
fn asked_by(tokens: &[Token<'_>]) -> Asked
    ensures { (text : Option (Sequence ℕ)) → asked_shown text result
        ≡ fold (λ commands token. with_command text commands token.symbol) no_commands (tokens_shown tokens.now) }
{
    let mut asked = Asked {
        cancel: false,
        restart: false,
        again: false,
        checkpoint: false,
        win: false,
        message: false,
    };
    for token in tokens {
        asked = asked.with(token.symbol);
    }
    asked
}

/// The text of the message of a line, if it has one and it is asked for.
fn message_of(
    alloc: Global,
    source: &Source,
    line: u32,
    asked: bool,
) -> Result<Option<Text>, Memory>
    requires { HasLine source.now line }
    ensures { IfOk result (λ message. message ≡ (if asked then text_of (line_at source.now line) else None)) }
{
    if !asked {
        return Ok(None);
    }
    let Some(word) = source.rest(line) else {
        return Ok(None);
    };
    let text = Text::from_str(alloc, word.text())?;
    Ok(Some(text))
}

/// The commands of words of the line of that number.
pub fn commands_of(
    alloc: Global,
    source: &Source,
    line: u32,
    tokens: &[Token<'_>],
) -> Result<Commands, Memory>
    requires { HasLine source.now line }
    ensures { IfOk result (λ commands. commands_shown commands
        ≡ commands_of (line_at source.now line) (tokens_shown tokens.now)) }
{
    let asked = asked_by(tokens);
    let message = message_of(alloc, source, line, asked.message)?;
    Ok(Commands {
        cancel: asked.cancel,
        restart: asked.restart,
        again: asked.again,
        checkpoint: asked.checkpoint,
        win: asked.win,
        message,
    })
}
