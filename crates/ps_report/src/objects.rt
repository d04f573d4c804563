//! The object of JSON on a text.

ghost use Rattle.std.specs.Prelude.{◌≡◌, ◌++◌, ◌∷◌, [], List, false, IfOk, OnOk, length, map, nat_le, string_bytes};
ghost use Rattle.ps_model.specs.declared.faults.Fault.{Fault as TheFault};
ghost use Rattle.ps_levels.specs.EntriesShown.{entries_shown, entry_shown};
ghost use Rattle.ps_report.specs.Objects.{IsFaultTold, IsRefusedLine, counts_of, data_line, entry_data, fault_data};
ghost use Rattle.ps_report.specs.Objects.{game_data, level_data, levels_data};
ghost use Rattle.ps_report.specs.Pages.{StandFor};
ghost use Rattle.serde_json.specs.Data.{array, null};
ghost use Rattle.serde_json.specs.View.{items_of, view};
ghost use Rattle.serde_json.specs.Written.{has_float};

use crate::codes::{code_of, name_of};
use crate::details::{How, told_of};
use crate::pages::first_faults;
use crate::warning_objects::object_on;
use ps_check::size_of;
use ps_game::Game;
use ps_levels::{Entry, Level};
use ps_model::{Fault, Memory};
use serde_json::{Value, json};
use std::alloc::Global;

/// A fault, with its column and what is to be mended.
fn fault_object(alloc: Global, text: &[u8], fault: Fault) -> Result<Value, Memory>
    ensures { IfOk result (λ told. IsFaultTold text.now fault (view told ∷ [])) }
{
    let told = told_of(alloc, text, fault)?;
    let own = fault_with(alloc, fault, told.column, told.sentence)?;
    Ok(own)
}

/// A fault, with this column and this message.
fn fault_with(alloc: Global, fault: Fault, column: usize, message: String) -> Result<Value, Memory>
    ensures { IfOk result (λ told. view told ≡ fault_data fault column (string_bytes message)) }
{
    let told = json!(in alloc; {
        "code": code_of(fault.kind),
        "column": column,
        "line": fault.line,
        "message": message,
        "name": name_of(fault.kind)
    })?;
    Ok(told)
}

/// Puts a value last.
fn push_value(told: &mut Vec<Value>, own: Value) -> Result<(), Memory>
    ensures { OnOk result (map view told.new.items ≡ map view told.old.items ++ view own ∷ []) }
{
    told.push(own)?;
    Ok(())
}

/// Puts a fault last, after those before it.
fn push_fault(alloc: Global, text: &[u8], fault: Fault, told: &mut Vec<Value>) -> Result<(), Memory>
    ensures { let Is = IsFaultTold text.now in (before : List TheFault) →
        StandFor Is before (map view told.old.items) →
        OnOk result (StandFor Is (before ++ fault ∷ []) (map view told.new.items)) }
{
    let own = fault_object(alloc, text, fault)?;
    push_value(told, own)?;
    Ok(())
}

/// The faults of a text, each with its column and what is to be mended.
fn fault_objects(alloc: Global, text: &[u8], faults: &[Fault]) -> Result<Vec<Value>, Memory>
    ensures { IfOk result (λ told. StandFor (IsFaultTold text.now) faults.now (map view told.items)) }
{
    let mut told = Vec::new(alloc);
    for fault in faults {
        push_fault(alloc, text, *fault, &mut told)?;
    }
    Ok(told)
}

/// How large a level is.
fn level_object(alloc: Global, level: &Level) -> Result<Value, Memory>
    ensures { IfOk result (λ told. view told ≡ level_data level.now) }
{
    let told = json!(in alloc; {"columns": level.width(), "rows": level.height()})?;
    Ok(told)
}

/// Puts the size of an entry last, if it is a level.
fn push_level(alloc: Global, entry: &Entry, told: &mut Vec<Value>) -> Result<(), Memory>
    ensures { OnOk result
        (map view told.new.items ≡ map view told.old.items ++ entry_data (entry_shown entry.now)) }
{
    if let Entry::Level(level) = entry {
        let own = level_object(alloc, level)?;
        told.push(own)?;
    }
    Ok(())
}

/// How large each level is.
fn level_objects(alloc: Global, entries: &[Entry]) -> Result<Vec<Value>, Memory>
    ensures { IfOk result (λ told. map view told.items ≡ levels_data (entries_shown entries.now)) }
{
    let mut told = Vec::new(alloc);
    for entry in entries {
        push_level(alloc, entry, &mut told)?;
    }
    Ok(told)
}

/// How many layers, levels, objects and rules a game has.
fn counts_object(alloc: Global, game: &Game) -> Result<Value, Memory>
    ensures { IfOk result (λ told. view told ≡ counts_of game.now) }
{
    let size = size_of(game);
    let told = json!(in alloc; {
        "layers": size.layers,
        "levels": size.levels,
        "objects": size.objects,
        "rules": size.rules
    })?;
    Ok(told)
}

/// What an object on a text is made of, besides what the text says of itself, its name, and its warnings.
#[derive(Drop)]
pub struct Parts {
    pub complete: bool,
    pub counts: Value,
    pub faults: Vec<Value>,
    pub levels: Value,
    pub ok: bool,
}

/// An object as a line.
fn line_of(alloc: Global, told: &Value) -> Result<String, Memory>
    ensures { IfOk result (λ line. has_float (view told.now) ≡ false → string_bytes line ≡ data_line (view told.now)) }
{
    let mut line = told.to_string(alloc)?;
    line.push('\n')?;
    Ok(line)
}

/// An array of values.
fn array_of(values: Vec<Value>) -> Value
    ensures { view result ≡ array (items_of (map view values.items)) }
{
    Value::Array(values)
}

/// The object on a text that is a game.
fn game_object(
    alloc: Global,
    name: &str,
    text: &[u8],
    how: How,
    game: &Game,
) -> Result<Value, Memory>
    ensures { IfOk result (λ told. view told ≡ game_data how name.now text.now game.now) }
{
    let counts = counts_object(alloc, game)?;
    let levels = level_objects(alloc, &game.entries)?;
    let parts = Parts {
        complete: true,
        counts,
        faults: Vec::new(alloc),
        levels: array_of(levels),
        ok: true,
    };
    let told = object_on(alloc, name, text, how, parts)?;
    Ok(told)
}

/// The line on a text that is a game.
pub fn game_line(
    alloc: Global,
    name: &str,
    text: &[u8],
    how: How,
    game: &Game,
) -> Result<String, Memory>
    ensures { IfOk result (λ line. string_bytes line ≡ data_line (game_data how name.now text.now game.now)) }
{
    let told = game_object(alloc, name, text, how, game)?;
    let line = line_of(alloc, &told)?;
    Ok(line)
}

/// The parts of the object on a text that has faults, of which these are told.
fn refused_parts(complete: bool, faults: Vec<Value>) -> Parts
    ensures complete { result.complete ≡ complete }
    ensures counts { view result.counts ≡ null }
    ensures faults { result.faults.items ≡ faults.items }
    ensures levels { view result.levels ≡ null }
    ensures ok { result.ok ≡ false }
{
    Parts {
        complete,
        counts: Value::Null,
        faults,
        levels: Value::Null,
        ok: false,
    }
}

/// Whether there are no more faults than `most`.
fn are_few(told: &[Fault], most: usize) -> bool
    ensures { result ≡ nat_le (length told.now) most }
{
    told.len() <= most
}

/// The line on a text that has faults: of `told`, `how.most` at most are told.
pub fn refused_line(
    alloc: Global,
    name: &str,
    text: &[u8],
    how: How,
    told: &[Fault],
) -> Result<String, Memory>
    ensures { IfOk result (λ line. IsRefusedLine how name.now text.now told.now (string_bytes line)) }
{
    let shown = first_faults(told, how.most as usize);
    let faults = fault_objects(alloc, text, shown)?;
    let complete = are_few(told, how.most as usize);
    let object = object_on(alloc, name, text, how, refused_parts(complete, faults))?;
    let line = line_of(alloc, &object)?;
    Ok(line)
}
