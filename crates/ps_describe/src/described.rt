//! What a game is, as a line of JSON.

ghost use Rattle.std.specs.Prelude.{◌≡◌, ◌++◌, IfErr, IfOk, OnOk, Some, encode_utf8, filter, length, map, string_bytes};
ghost use Rattle.std.specs.List.{flat_map};
ghost use Rattle.ps_model.specs.declared.faults.Fault.{Fault as TheFault};
ghost use Rattle.ps_model.specs.game.Games.{faults};
ghost use Rattle.ps_model.specs.text.Faults.{first_fault};
ghost use Rattle.ps_model.specs.session.Sessions.{is_level};
ghost use Rattle.ps_levels.specs.EntriesShown.{entries_shown};
ghost use Rattle.ps_facts.specs.NamesShown.{names_shown};
ghost use Rattle.ps_describe.specs.Descriptions.{IsDescribed, description, description_line, ignored_keys};
ghost use Rattle.ps_describe.specs.Descriptions.{object_with, player_characters, word_if};
ghost use Rattle.serde_json.specs.Data.{string};
ghost use Rattle.serde_json.specs.View.{view};

use crate::glyphs::glyphs_told;
use crate::players::player_characters;
use crate::without_glyph::names_without_glyph;
use ps_facts::{Named, declared_names};
use ps_game::{Game, read_game};
use ps_levels::Entry;
use ps_model::{Memory, Options, Refusal};
use ps_names::Names;
use ps_text::Source;
use serde_json::{Value, json};
use std::alloc::{AllocError, Global};

/// The text of characters.
fn text_of(alloc: Global, characters: &[char]) -> Result<String, Memory>
    ensures { IfOk result (λ text. string_bytes text ≡ flat_map encode_utf8 characters.now) }
{
    let mut text = String::new(alloc);
    for character in characters {
        text.push(*character)?;
    }
    Ok(text)
}

/// The characters that show a Player, as a text.
fn players_told(alloc: Global, names: &Names) -> Result<String, Memory>
    ensures { IfOk result (λ told. string_bytes told ≡ flat_map encode_utf8 (player_characters names.now)) }
{
    let characters = player_characters(alloc, names)?;
    text_of(alloc, &characters)
}

/// Puts a word last, if it is to be told.
fn push_word(alloc: Global, is_told: bool, word: &str, told: &mut Vec<Value>) -> Result<(), Memory>
    ensures { OnOk result (map view told.new.items
        ≡ map view told.old.items ++ map string (word_if is_told word.now)) }
{
    if is_told {
        told.push(Value::String(String::from_str(alloc, word)?))?;
    }
    Ok(())
}

/// The keys that a game ignores.
fn ignored_keys(alloc: Global, options: Options) -> Result<Vec<Value>, Memory>
    ensures { IfOk result (λ told. map view told.items ≡ map string (ignored_keys options)) }
{
    let mut told = Vec::new(alloc);
    push_word(alloc, options.no_action, "act", &mut told)?;
    push_word(alloc, options.no_undo, "undo", &mut told)?;
    push_word(alloc, options.no_restart, "restart", &mut told)?;
    Ok(told)
}

/// How many of the entries are levels.
fn levels_among(entries: &[Entry]) -> usize
    ensures { result ≡ length (filter is_level (entries_shown entries.now)) }
{
    let mut count = 0;
    for entry in entries {
        let Entry::Level(_) = entry else {
            continue;
        };
        count += 1;
    }
    count
}

/// What a description is made of.
#[derive(Drop)]
struct Parts {
    glyphs: Vec<Value>,
    ignored_keys: Vec<Value>,
    levels: usize,
    player_glyphs: String,
    title: String,
    without_glyph: Vec<Value>,
}

/// The object that has these parts.
fn object_with(alloc: Global, parts: Parts) -> Result<Value, AllocError>
    ensures { IfOk result (λ told. view told ≡ object_with (map view parts.glyphs.items)
        (map view parts.ignored_keys.items) parts.levels (string_bytes parts.player_glyphs)
        (string_bytes parts.title) (map view parts.without_glyph.items)) }
{
    json!(in alloc; {
        "glyphs": Value::Array(parts.glyphs),
        "ignored_keys": Value::Array(parts.ignored_keys),
        "levels": parts.levels,
        "player_glyphs": parts.player_glyphs,
        "title": parts.title,
        "without_glyph": Value::Array(parts.without_glyph)
    })
}

/// What a game is, where its text declares these names.
#[tactic(auto, using(crate::proofs::Texts::described_by))]
fn description(alloc: Global, game: &Game, declared: &[Named<'_>]) -> Result<Value, Memory>
    ensures { IfOk result (λ told. view told ≡ description game.now (names_shown declared.now)) }
{
    let glyphs = glyphs_told(alloc, &game.names, declared)?;
    let ignored_keys = ignored_keys(alloc, game.options)?;
    let player_glyphs = players_told(alloc, &game.names)?;
    let title = String::from_str(alloc, game.title.as_str())?;
    let without_glyph = names_without_glyph(alloc, &game.names, declared)?;
    let parts = Parts {
        glyphs,
        ignored_keys,
        levels: levels_among(&game.entries),
        player_glyphs,
        title,
        without_glyph,
    };
    let told = object_with(alloc, parts)?;
    Ok(told)
}

/// What a game is, as a line; its text is that of a source.
#[tactic(auto, using(crate::proofs::Texts::description_plain))]
fn line_of(alloc: Global, source: &Source, game: &Game) -> Result<String, Memory>
    ensures { IfOk result (λ line. string_bytes line ≡ description_line source.now game.now) }
{
    let declared = declared_names(alloc, source)?;
    let told = description(alloc, game, &declared)?;
    let mut line = told.to_string(alloc)?;
    line.push('\n')?;
    Ok(line)
}

/// What a text is that is a game, as a line of JSON. It is an object with these members:
///
/// - `title`; `levels`, how many there are; `ignored_keys`, of `act`, `undo` and `restart`;
/// - `glyphs`, each with its character as `glyph` and the names of the `objects` that it shows;
/// - `player_glyphs`, the characters of those that show an object of Player;
/// - `without_glyph`, the names of the objects that no glyph shows alone.
///
/// # Errors
///
/// `Refused` with the first fault of the text, where it has one. `Memory`.
pub fn describe(alloc: Global, text: &[u8]) -> Result<String, Refusal>
    ensures told { IfOk result (λ line. IsDescribed text.now (string_bytes line)) }
    ensures refused { IfErr result (λ e. (fault : TheFault) → e ≡ Refusal.Refused fault
        → first_fault (faults text.now) ≡ Some fault) }
{
    let game = read_game(alloc, text)?;
    let source = Source::read(alloc, text)?;
    let line = line_of(alloc, &source, &game)?;
    Ok(line)
}
