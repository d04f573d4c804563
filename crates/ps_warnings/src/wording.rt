//! Warnings in words.

ghost use Rattle.std.specs.Prelude.{◌≡◌, IfOk, string_bytes};
ghost use Rattle.ps_warnings.specs.Wording.{layer_sentence, near_sentence, sentence, twice_sentence};

use crate::kinds::{PreludeWord, WarningKind};
use ps_model::Memory;
use std::alloc::Global;

/// A text as it stands.
fn copied(alloc: Global, text: &str) -> Result<String, Memory>
    ensures { IfOk result (λ words. string_bytes words ≡ text.now) }
{
    let words = String::from_str(alloc, text)?;
    Ok(words)
}

/// That a line of the prelude is surely meant to begin with a word.
fn near_sentence(alloc: Global, word: PreludeWord) -> Result<String, Memory>
    ensures { IfOk result (λ words. string_bytes words ≡ near_sentence word) }
{
    let meant = word.text();
    let words = format!(in alloc; "this line has no effect: did you mean `{meant}`?")?;
    Ok(words)
}

/// That a rule stands at another line, too.
fn twice_sentence(alloc: Global, line: u32) -> Result<String, Memory>
    ensures { IfOk result (λ words. string_bytes words ≡ twice_sentence line) }
{
    let words = format!(in alloc; "this rule repeats line {line}")?;
    Ok(words)
}

/// That an object of a line of COLLISIONLAYERS is on another line's layer.
fn layer_sentence(alloc: Global, line: u32) -> Result<String, Memory>
    ensures { IfOk result (λ words. string_bytes words ≡ layer_sentence line) }
{
    let words = format!(in alloc;
        "this line names an object that line {line} names too: it is on the layer of that line"
    )?;
    Ok(words)
}

/// What is surely a mistake, in words that begin in lower case and have no point at the end.
///
/// # Errors
///
/// `Memory` if a growth was refused.
pub fn sentence_of(alloc: Global, kind: WarningKind) -> Result<String, Memory>
    ensures { IfOk result (λ words. string_bytes words ≡ sentence kind) }
{
    match kind {
        WarningKind::NearWord(word) => near_sentence(alloc, word),
        WarningKind::IdleRooms => copied(
            alloc,
            "this line has no effect, as no level is larger than such a room",
        ),
        WarningKind::UnusedObject => copied(
            alloc,
            "no level, rule or win condition uses this object",
        ),
        WarningKind::UnusedName => copied(
            alloc,
            "no rule, win condition, layer or other name uses this name",
        ),
        WarningKind::LayerTwice(line) => layer_sentence(alloc, line),
        WarningKind::NoRoom => copied(
            alloc,
            "an object that moves is on the layer of Background, where it has no room: put Background on a line of \
                its own",
        ),
        WarningKind::IdleRule => copied(alloc, "this rule has no effect"),
        WarningKind::LackingRule => copied(
            alloc,
            "this rule can never apply, as it needs an object that no level has and no rule makes",
        ),
        WarningKind::RuleTwice(line) => twice_sentence(alloc, line),
        WarningKind::LateTwice => copied(alloc, "this rule says `late` twice"),
        WarningKind::NoText => copied(alloc, "this message has no text"),
        WarningKind::IdleWin => copied(alloc, "this win condition always holds"),
        WarningKind::ApartWin => copied(
            alloc,
            "the two names of this win condition share a layer, so no cell can have both",
        ),
        WarningKind::LackingWin => copied(
            alloc,
            "this win condition names an object that no level has and no rule makes",
        ),
        WarningKind::NothingWins => copied(
            alloc,
            "nothing wins these levels, as there is no win condition and no rule with `win`",
        ),
        WarningKind::NoPlayer => copied(alloc, "this level has no Player"),
        WarningKind::LongRow => copied(
            alloc,
            "this row is longer than the first of its level, and is cut off",
        ),
        WarningKind::ShortRow => copied(
            alloc,
            "this row is shorter than the first of its level, and is filled up",
        ),
    }
}
