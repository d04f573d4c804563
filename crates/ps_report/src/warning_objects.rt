//! The object of JSON on a text, with its warnings where they are asked for.

ghost use Rattle.std.specs.Prelude.{◌≡◌, ◌++◌, ◌∷◌, [], Some, IfOk, OnOk, map};
ghost use Rattle.ps_report.specs.Objects.{object_with};
ghost use Rattle.ps_report.specs.Preludes.{said_by, words_shown};
ghost use Rattle.ps_report.specs.ToldWarnings.{last_members, members_shown, warning_data, warnings_data};
ghost use Rattle.serde_json.specs.Data.{no_members};
ghost use Rattle.serde_json.specs.View.{view};

use crate::details::How;
use crate::objects::Parts;
use crate::preludes::{Words, said_by};
use ps_model::Memory;
use ps_warnings::{Warning, sentence_of, warnings};
use serde_json::{Value, json};
use std::alloc::{AllocError, Global};

/// A warning with its line.
fn warning_object(alloc: Global, warning: Warning) -> Result<Value, Memory>
    ensures { IfOk result (λ told. view told ≡ warning_data warning) }
{
    let message = sentence_of(alloc, warning.kind)?;
    let told = json!(in alloc; {"line": warning.line, "message": message})?;
    Ok(told)
}

/// Puts a warning last.
fn push_warning(alloc: Global, warning: Warning, told: &mut Vec<Value>) -> Result<(), Memory>
    ensures { OnOk result (map view told.new.items ≡ map view told.old.items ++ warning_data warning ∷ []) }
{
    let own = warning_object(alloc, warning)?;
    told.push(own)?;
    Ok(())
}

/// All of them.
fn warning_objects(alloc: Global, warnings: &[Warning]) -> Result<Vec<Value>, Memory>
    ensures { IfOk result (λ told. map view told.items ≡ warnings_data warnings.now) }
{
    let mut told = Vec::new(alloc);
    for warning in warnings {
        push_warning(alloc, *warning, &mut told)?;
    }
    Ok(told)
}

/// Those of a text, if they are asked for.
fn asked_warnings(alloc: Global, text: &[u8], how: How) -> Result<Option<Vec<Value>>, Memory>
    ensures { IfOk result (λ told. members_shown told ≡ last_members how text.now) }
{
    if !how.warns {
        return Ok(None);
    }
    let warnings = warnings(alloc, text)?;
    let told = warning_objects(alloc, &warnings)?;
    Ok(Some(told))
}

/// The object that has these parts.
fn object_without(
    alloc: Global,
    name: &str,
    words: Words,
    parts: Parts,
) -> Result<Value, AllocError>
    ensures { IfOk result (λ told. view told ≡ object_with (words_shown words) parts.complete (view parts.counts)
        (map view parts.faults.items) name.now (view parts.levels) parts.ok no_members) }
{
    json!(in alloc; {
        "author": words.author,
        "complete": parts.complete,
        "counts": parts.counts,
        "faults": Value::Array(parts.faults),
        "file": name,
        "homepage": words.homepage,
        "levels": parts.levels,
        "ok": parts.ok,
        "title": words.title
    })
}

/// The object that has these parts, and warnings.
fn object_warning(
    alloc: Global,
    name: &str,
    words: Words,
    parts: Parts,
    warnings: Vec<Value>,
) -> Result<Value, AllocError>
    ensures { IfOk result (λ told. view told ≡ object_with (words_shown words) parts.complete (view parts.counts)
        (map view parts.faults.items) name.now (view parts.levels) parts.ok
        (members_shown (Some warnings))) }
{
    json!(in alloc; {
        "author": words.author,
        "complete": parts.complete,
        "counts": parts.counts,
        "faults": Value::Array(parts.faults),
        "file": name,
        "homepage": words.homepage,
        "levels": parts.levels,
        "ok": parts.ok,
        "title": words.title,
        "warnings": Value::Array(warnings)
    })
}

/// The object that has these parts, and warnings if they are given.
fn object_of(
    alloc: Global,
    name: &str,
    words: Words,
    parts: Parts,
    warnings: Option<Vec<Value>>,
) -> Result<Value, AllocError>
    ensures { IfOk result (λ told. view told ≡ object_with (words_shown words) parts.complete (view parts.counts)
        (map view parts.faults.items) name.now (view parts.levels) parts.ok (members_shown warnings)) }
{
    match warnings {
        None => object_without(alloc, name, words, parts),
        Some(warnings) => object_warning(alloc, name, words, parts, warnings),
    }
}

/// The object on a text of that name that has these parts.
pub fn object_on(
    alloc: Global,
    name: &str,
    text: &[u8],
    how: How,
    parts: Parts,
) -> Result<Value, Memory>
    ensures { IfOk result (λ told. view told ≡ object_with (said_by text.now) parts.complete (view parts.counts)
        (map view parts.faults.items) name.now (view parts.levels) parts.ok (last_members how text.now)) }
{
    let warnings = asked_warnings(alloc, text, how)?;
    let words = said_by(alloc, text)?;
    let told = object_of(alloc, name, words, parts, warnings)?;
    Ok(told)
}
