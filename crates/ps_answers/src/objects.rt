//! The object of JSON that tells an answer about a level.

ghost use Rattle.std.specs.Prelude.{◌≡◌, false, IfOk, map, string_bytes};
ghost use Rattle.ps_answers.specs.SolvedObjects.{never_told, data_line, object_line, object_with, reason_name};
ghost use Rattle.ps_answers.specs.SolvedObjects.{told_of, told_shown, unknown_told, won_told};
ghost use Rattle.ps_answers.specs.SolvedWords.{letter};
ghost use Rattle.serde_json.specs.View.{view};
ghost use Rattle.serde_json.specs.Written.{has_float};

use crate::lines::{add, letter};
use crate::solved::{Solved, Unsolved};
use ps_model::{Input, Memory};
use serde_json::{Value, json};
use std::alloc::{AllocError, Global};

/// What an object tells of a level, besides its number and the name of its text.
#[derive(Drop)]
pub struct Parts {
    pub answer: &'static str,
    pub depth: Value,
    pub fewest: Value,
    pub keys: Value,
    pub reason: Value,
    pub states: Value,
}

/// The keys of inputs.
fn letters_of(alloc: Global, inputs: &[Input]) -> Result<String, Memory>
    ensures { IfOk result (λ letters. string_bytes letters ≡ map letter inputs.now) }
{
    let mut letters = String::new(alloc);
    for input in inputs {
        letters.push_str(letter(*input))?;
    }
    Ok(letters)
}

/// Why it isn't known whether a level can be won, as a member of the object says it.
fn reason_name(why: Unsolved) -> &'static str
    ensures { result.now ≡ reason_name why }
{
    match why {
        Unsolved::Limit => "limit",
        Unsolved::Memory => "memory",
        Unsolved::Stopped => "stopped",
        Unsolved::Full => "full",
        Unsolved::Boards => "boards",
    }
}

/// That these inputs win.
fn won_parts(alloc: Global, inputs: &[Input]) -> Result<Parts, Memory>
    ensures { IfOk result (λ parts. told_shown parts ≡ won_told inputs.now) }
{
    let keys = letters_of(alloc, inputs)?;
    Ok(Parts {
        answer: "won",
        depth: Value::Null,
        fewest: Value::from(inputs.len()),
        keys: Value::String(keys),
        reason: Value::Null,
        states: Value::Null,
    })
}

/// That no inputs win.
fn never_parts(states: u32) -> Parts
    ensures { told_shown result ≡ never_told states }
{
    Parts {
        answer: "never",
        depth: Value::Null,
        fewest: Value::Null,
        keys: Value::Null,
        reason: Value::Null,
        states: Value::from(states),
    }
}

/// That no `depth` inputs win, and why no more is known.
fn unknown_parts(alloc: Global, states: u32, depth: u32, why: Unsolved) -> Result<Parts, Memory>
    ensures { IfOk result (λ parts. told_shown parts ≡ unknown_told states depth why) }
{
    let reason = String::from_str(alloc, reason_name(why))?;
    Ok(Parts {
        answer: "unknown",
        depth: Value::from(depth),
        fewest: Value::Null,
        keys: Value::Null,
        reason: Value::String(reason),
        states: Value::from(states),
    })
}

/// What an object tells of an answer.
fn parts_of(alloc: Global, solved: &Solved) -> Result<Parts, Memory>
    ensures { IfOk result (λ parts. told_shown parts ≡ told_of solved.now) }
{
    match solved {
        Solved::Won { keys } => won_parts(alloc, keys),
        Solved::Never { states } => Ok(never_parts(*states)),
        Solved::Unknown { states, depth, why } => unknown_parts(alloc, *states, *depth, *why),
    }
}

/// The object that has these parts.
fn object_with(alloc: Global, name: &str, level: usize, parts: Parts) -> Result<Value, AllocError>
    ensures { IfOk result (λ told. view told ≡ object_with name.now level (told_shown parts)) }
{
    json!(in alloc; {
        "answer": parts.answer,
        "depth": parts.depth,
        "fewest": parts.fewest,
        "file": name,
        "keys": parts.keys,
        "level": level,
        "reason": parts.reason,
        "states": parts.states
    })
}

/// The object on the level of that number, in a text of that name.
fn level_object(alloc: Global, name: &str, level: usize, solved: &Solved) -> Result<Value, Memory>
    ensures { IfOk result (λ told. view told ≡ object_with name.now level (told_of solved.now)) }
{
    let parts = parts_of(alloc, solved)?;
    let told = object_with(alloc, name, level, parts)?;
    Ok(told)
}

/// An object as a line.
fn line_of(alloc: Global, told: &Value) -> Result<Vec<u8>, Memory>
    ensures { IfOk result (λ line. has_float (view told.now) ≡ false → line.items ≡ data_line (view told.now)) }
{
    let text = told.to_string(alloc)?;
    let mut line = Vec::new(alloc);
    add(&mut line, &text)?;
    add(&mut line, "\n")?;
    Ok(line)
}

/// The line with the object of JSON on the level of that number, in a text of that name.
///
/// # Errors
///
/// `Memory`.
pub fn object_line(
    alloc: Global,
    name: &str,
    level: usize,
    solved: &Solved,
) -> Result<Vec<u8>, Memory>
    ensures { IfOk result (λ line. line.items ≡ object_line name.now level solved.now) }
{
    let told = level_object(alloc, name, level, solved)?;
    let line = line_of(alloc, &told)?;
    Ok(line)
}
