//! The words of a line of RULES, each with what it is.

ghost use Rattle.std.specs.Prelude.{◌≡◌, ◌++◌, ◌∷◌, [], IfOk, OnOk, map};
ghost use Rattle.ps_model.specs.text.LineNumbers.{HasLine, line_at};
ghost use Rattle.ps_model.specs.rules.RuleSymbols.{symbol_of, first_symbol, tokens_of, tokens_kept};
ghost use Rattle.ps_rules.specs.SymbolsShown.{token_shown, tokens_shown, token_of_word, tokens_of_words};

use crate::key_words::{first_symbol, symbol_of};
use crate::symbols::{Symbol, Token};
use ps_model::{Cut, Memory};
use ps_names::Names;
use ps_text::{Source, Word, words};
use std::alloc::Global;

/// The first word of a line.
fn first_token<'n>(alloc: Global, names: &'n Names, word: &Word<'_>) -> Result<Token<'n>, Memory>
    ensures { IfOk result (λ token. token_shown token ≡ token_of_word (first_symbol names.entry.now) word.now) }
{
    let symbol = first_symbol(alloc, names, word.text())?;
    Ok(Token {
        at: word.span().start,
        symbol,
    })
}

/// A word of a line after the first.
fn next_token<'n>(alloc: Global, names: &'n Names, word: &Word<'_>) -> Result<Token<'n>, Memory>
    ensures { IfOk result (λ token. token_shown token ≡ token_of_word (symbol_of names.entry.now) word.now) }
{
    let symbol = symbol_of(alloc, names, word.text())?;
    Ok(Token {
        at: word.span().start,
        symbol,
    })
}

/// Puts the first word of a line last.
fn push_first<'n>(
    alloc: Global,
    names: &'n Names,
    word: &Word<'_>,
    tokens: &mut Vec<Token<'n>>,
) -> Result<(), Memory>
    ensures { OnOk result (tokens_shown tokens.new.items
        ≡ tokens_shown tokens.old.items ++ token_of_word (first_symbol names.entry.now) word.now ∷ []) }
{
    let token = first_token(alloc, names, word)?;
    tokens.push(token)?;
    Ok(())
}

/// Puts words of a line after the first last.
fn push_next<'n>(
    alloc: Global,
    names: &'n Names,
    words: &[Word<'_>],
    tokens: &mut Vec<Token<'n>>,
) -> Result<(), Memory>
    ensures { OnOk result (tokens_shown tokens.new.items
        ≡ tokens_shown tokens.old.items ++ map (token_of_word (symbol_of names.entry.now)) words.now) }
{
    for word in words {
        tokens.push(next_token(alloc, names, word)?)?;
    }
    Ok(())
}

/// The words of a line, each with what it is.
fn tokens_of_words<'n>(
    alloc: Global,
    names: &'n Names,
    words: &[Word<'_>],
) -> Result<Vec<Token<'n>>, Memory>
    ensures { IfOk result (λ tokens. tokens_shown tokens.items ≡ tokens_of_words names.entry.now words.now) }
{
    let mut tokens = Vec::new(alloc);
    let Some((first, others)) = words.split_first() else {
        return Ok(tokens);
    };
    push_first(alloc, names, first, &mut tokens)?;
    push_next(alloc, names, others, &mut tokens)?;
    Ok(tokens)
}

/// The words of the line of that number.
pub fn tokens_of<'n>(
    alloc: Global,
    source: &Source,
    line: u32,
    names: &'n Names,
) -> Result<Vec<Token<'n>>, Memory>
    requires { HasLine source.now line }
    ensures { IfOk result (λ tokens. tokens_shown tokens.items ≡ tokens_of names.entry.now (line_at source.now line)) }
{
    let words = words(alloc, source, line, Cut::Rule)?;
    tokens_of_words(alloc, names, &words)
}

/// The words but for those that this profile leaves out.
pub fn tokens_kept<'n>(alloc: Global, tokens: &[Token<'n>]) -> Result<Vec<Token<'n>>, Memory>
    ensures { IfOk result (λ kept. tokens_shown kept.items ≡ tokens_kept (tokens_shown tokens.now)) }
{
    let mut kept = Vec::new(alloc);
    for token in tokens {
        push_kept(&mut kept, *token)?;
    }
    Ok(kept)
}

/// Keeps a word, if this profile doesn't leave it out.
fn push_kept<'n>(kept: &mut Vec<Token<'n>>, token: Token<'n>) -> Result<(), Memory>
    ensures { OnOk result (tokens_shown kept.new.items
        ≡ tokens_shown kept.old.items ++ tokens_kept (token_shown token.entry ∷ [])) }
{
    if let Symbol::LeftOut = token.symbol {
        return Ok(());
    }
    kept.push(token)?;
    Ok(())
}
