//! What is said about loops, and of names for several objects, in words.

ghost use Rattle.std.specs.Prelude.{◌≡◌, IfOk, string_bytes};
ghost use Rattle.ps_why.specs.GameWording.{nested_words, unbegun_words, loop_sentence, at_once_words, apart_words};
ghost use Rattle.ps_why.specs.GameWording.{any_of_words, one_layer_words, whole_sentence};

use ps_causes::{LoopCause, WholeCause};
use ps_model::Memory;
use std::alloc::Global;

/// That a loop is open.
fn nested_words(alloc: Global, line: u32) -> Result<String, Memory>
    ensures { IfOk result (λ words. string_bytes words ≡ nested_words line) }
{
    let words = format!(in alloc; "The loop of line {line} is still open: loops don't nest.")?;
    Ok(words)
}

/// That none is, and where the last one has ended.
fn unbegun_words(alloc: Global, ended: Option<u32>) -> Result<String, Memory>
    ensures { IfOk result (λ words. string_bytes words ≡ unbegun_words ended) }
{
    let Some(line) = ended else {
        let words = String::from_str(
            alloc,
            "No loop is open here: there is no `startloop` above.",
        )?;
        return Ok(words);
    };
    let words = format!(in alloc; "No loop is open here: line {line} has ended the last one.")?;
    Ok(words)
}

/// What is said about a loop.
pub fn loop_sentence(alloc: Global, cause: LoopCause<'_>) -> Result<String, Memory>
    ensures { IfOk result (λ words. string_bytes words ≡ loop_sentence cause.entry) }
{
    match cause {
        LoopCause::Nested { open_line, .. } => nested_words(alloc, open_line),
        LoopCause::Unbegun { ended, .. } => unbegun_words(alloc, ended),
        LoopCause::Unended { .. } => {
            let words = String::from_str(alloc, "There is no `endloop` below.")?;
            Ok(words)
        }
    }
}

/// That a word stands for several objects at once.
fn at_once_words(alloc: Global, word: &str, line: u32) -> Result<String, Memory>
    ensures { IfOk result (λ words. string_bytes words ≡ at_once_words word.now line) }
{
    let words = format!(in alloc;
        "Line {line} makes `{word}` several objects at once: with `or` it would be any of them."
    )?;
    Ok(words)
}

/// That a word stands for any of several objects.
fn any_of_words(alloc: Global, word: &str, line: u32) -> Result<String, Memory>
    ensures { IfOk result (λ words. string_bytes words ≡ any_of_words word.now line) }
{
    let words = format!(in alloc;
        "Line {line} makes `{word}` any of several objects: with `and` it would be all of them."
    )?;
    Ok(words)
}

/// That two words stand in two lines of COLLISIONLAYERS.
fn apart_words(
    alloc: Global,
    word: &str,
    layer: u32,
    other: &str,
    other_layer: u32,
) -> Result<String, Memory>
    ensures { IfOk result (λ words. string_bytes words ≡ apart_words word.now layer other.now other_layer) }
{
    let words = format!(in alloc;
        "Line {layer} of COLLISIONLAYERS has `{word}` and line {other_layer} has `{other}`: \
        a background has to lie on one layer."
    )?;
    Ok(words)
}

/// That two words stand in one line of COLLISIONLAYERS.
fn one_layer_words(alloc: Global, word: &str, other: &str, layer: u32) -> Result<String, Memory>
    ensures { IfOk result (λ words. string_bytes words ≡ one_layer_words word.now other.now layer) }
{
    let words = format!(in alloc;
        "`and` joins objects of different lines of COLLISIONLAYERS: line {layer} has both `{other}` and `{word}`."
    )?;
    Ok(words)
}

/// What is said about a name for several objects.
pub fn whole_sentence(alloc: Global, cause: WholeCause<'_>) -> Result<String, Memory>
    ensures { IfOk result (λ words. string_bytes words ≡ whole_sentence cause.entry) }
{
    match cause {
        WholeCause::AllAtOnce { word, first } => at_once_words(alloc, word.text(), first.line),
        WholeCause::AnyOfThem { word, first } => any_of_words(alloc, word.text(), first.line),
        WholeCause::OnTwoLayers {
            word,
            layer,
            other,
            other_layer,
        } => apart_words(alloc, word.text(), layer, other.text(), other_layer),
        WholeCause::OnOneLayer { word, other, layer } => one_layer_words(
            alloc,
            word.text(),
            other.text(),
            layer,
        ),
    }
}
