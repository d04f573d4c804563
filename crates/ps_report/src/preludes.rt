//! What a text says of itself above its sections, as JSON.

ghost use Rattle.std.specs.Prelude.{◌≡◌, IfOk};
ghost use Rattle.ps_model.specs.text.LineNumbers.{HasLines, lines_between};
ghost use Rattle.ps_model.specs.text.Lines.{folded, lines_of};
ghost use Rattle.ps_report.specs.Preludes.{nothing_said, said_by, said_by_lines, said_in, words_shown};
ghost use Rattle.ps_report.specs.PreludeTexts.{text_after};
ghost use Rattle.serde_json.specs.Data.{string};
ghost use Rattle.serde_json.specs.View.{view};

use crate::prelude_lines::read_text;
use ps_model::{Memory, Refusal};
use ps_sections::read_sections;
use ps_text::Source;
use serde_json::Value;
use std::alloc::Global;
use std::ops::Range;

/// What a text says of itself, each as JSON: a text, or nothing.
#[derive(Drop)]
pub struct Words {
    pub author: Value,
    pub homepage: Value,
    pub title: Value,
}

/// What the first line of a prelude says that begins with the word.
fn said_after(
    alloc: Global,
    source: &Source,
    prelude: &Range<u32>,
    word: &str,
) -> Result<Value, Memory>
    requires { HasLines source.now prelude.now.start prelude.now.end }
    ensures { IfOk result (λ said. view said
        ≡ string (text_after (folded word.now) (lines_between source.now prelude.now.start prelude.now.end))) }
{
    let text = read_text(alloc, source, prelude, word)?;
    let said = String::from_str(alloc, text.as_str())?;
    Ok(Value::String(said))
}

/// What the lines of a prelude say.
fn said_in(alloc: Global, source: &Source, prelude: &Range<u32>) -> Result<Words, Memory>
    requires { HasLines source.now prelude.now.start prelude.now.end }
    ensures { IfOk result (λ words. words_shown words
        ≡ said_in (lines_between source.now prelude.now.start prelude.now.end)) }
{
    let author = said_after(alloc, source, prelude, "author")?;
    let homepage = said_after(alloc, source, prelude, "homepage")?;
    let title = said_after(alloc, source, prelude, "title")?;
    Ok(Words {
        author,
        homepage,
        title,
    })
}

/// Nothing.
fn nothing_said() -> Words
    ensures { words_shown result ≡ nothing_said }
{
    Words {
        author: Value::Null,
        homepage: Value::Null,
        title: Value::Null,
    }
}

/// What a text says that was read.
#[tactic(auto, using(crate::proofs::WordsSaid::lines_fine, crate::proofs::WordsSaid::lines_faulty))]
fn said_by_source(alloc: Global, source: &Source) -> Result<Words, Memory>
    ensures { IfOk result (λ words. words_shown words ≡ said_by_lines (lines_of source.now)) }
{
    match read_sections(alloc, source) {
        Ok(sections) => {
            let words = said_in(alloc, source, &sections.prelude)?;
            Ok(words)
        }
        Err(Refusal::Refused(fault)) => {
            // Which one it is, is told elsewhere.
            let _ = fault;
            Ok(nothing_said())
        }
        Err(Refusal::Memory) => Err(Memory),
    }
}

/// What a text says of itself; nothing, where its headers or its prelude have a fault, or its bytes are no text.
#[tactic(auto, using(crate::proofs::WordsSaid::text_fine, crate::proofs::WordsSaid::text_faulty))]
pub fn said_by(alloc: Global, text: &[u8]) -> Result<Words, Memory>
    ensures { IfOk result (λ words. words_shown words ≡ said_by text.now) }
{
    match Source::read(alloc, text) {
        Ok(source) => {
            let words = said_by_source(alloc, &source)?;
            Ok(words)
        }
        Err(Refusal::Refused(fault)) => {
            // Which one it is, is told elsewhere.
            let _ = fault;
            Ok(nothing_said())
        }
        Err(Refusal::Memory) => Err(Memory),
    }
}
