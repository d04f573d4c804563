//! What is said about a rule, in words.

ghost use Rattle.std.specs.Prelude.{◌≡◌, IfOk, string_bytes};
ghost use Rattle.ps_why.specs.RuleWording.{pair_words, several_words, unbound_words, rows_words, cells_words};
ghost use Rattle.ps_why.specs.RuleWording.{part_words, going_on_words, rule_sentence, shared_words, could_words};
ghost use Rattle.ps_why.specs.RuleWording.{broken_words, further_words, lone_words, other_words, several_left_words};
ghost use Rattle.ps_causes.specs.declared.causes.Could.TheVariants.{Either};

use ps_causes::{Could, Further, Part, RuleCause, Shared, Spot};
use ps_model::Memory;
use std::alloc::Global;

/// What two names of one cell share.
fn shared_words(alloc: Global, shared: Shared<'_>) -> Result<String, Memory>
    ensures { IfOk result (λ words. string_bytes words ≡ shared_words shared.entry) }
{
    match shared {
        Shared::Object(name) => {
            let line = name.line;
            let name = name.name;
            let words = format!(in alloc; "both name `{name}` of line {line}.")?;
            Ok(words)
        }
        Shared::Property(line) => {
            let words = format!(in alloc; "are the same property, that of line {line}.")?;
            Ok(words)
        }
        Shared::Layer(line) => {
            let words = format!(in alloc; "line {line} of COLLISIONLAYERS is a layer of both.")?;
            Ok(words)
        }
    }
}

/// That two names stand in one cell, and what they share.
fn pair_words(alloc: Global, word: &str, other: &str, shared: Shared<'_>) -> Result<String, Memory>
    ensures { IfOk result (λ words. string_bytes words ≡ pair_words word.now other.now shared.entry) }
{
    let shared = shared_words(alloc, shared)?;
    let words = format!(in alloc; "`{other}` and `{word}` are in one cell, and {shared}")?;
    Ok(words)
}

/// That a word stands for several objects at once.
fn several_words(alloc: Global, word: &str, line: u32) -> Result<String, Memory>
    ensures { IfOk result (λ words. string_bytes words ≡ several_words word.now line) }
{
    let words = format!(in alloc;
        "Line {line} makes `{word}` several objects at once, and `no` can't come before such a name."
    )?;
    Ok(words)
}

/// That of `times` words two were told.
fn further_words(times: usize) -> &'static str
    ensures { result.now ≡ further_words times }
{
    if times > 2 {
        return " among them.";
    }
    "."
}

/// Two words of the left, of so many that could be meant.
fn either_words(
    alloc: Global,
    times: usize,
    first: Spot<'_>,
    second: Spot<'_>,
) -> Result<String, Memory>
    ensures { IfOk result (λ words. string_bytes words ≡ could_words times (Either first.entry second.entry)) }
{
    let one = first.word.text();
    let one_cell = first.cell;
    let other = second.word.text();
    let other_cell = second.cell;
    let back = further_words(times);
    let words = format!(in alloc;
        ", `{one}` in cell {one_cell} and `{other}` in cell {other_cell}{back}"
    )?;
    Ok(words)
}

/// Another property of the left, and its cell.
fn other_words(alloc: Global, name: &str, cell: usize) -> Result<String, Memory>
    ensures { IfOk result (λ words. string_bytes words ≡ other_words name.now cell) }
{
    let words = format!(in alloc; ". The left has another property, `{name}` in cell {cell}.")?;
    Ok(words)
}

/// What of the left could be meant, where `times` of it are like the word.
fn could_words(alloc: Global, times: usize, could: Could<'_>) -> Result<String, Memory>
    ensures { IfOk result (λ words. string_bytes words ≡ could_words times could.entry) }
{
    match could {
        Could::Nothing => {
            let words = String::from_str(alloc, ".")?;
            Ok(words)
        }
        Could::Either { first, second } => either_words(alloc, times, first, second),
        Could::Other(spot) => other_words(alloc, spot.word.text(), spot.cell),
    }
}

/// That a word of the right isn't on the left, and what else is said.
fn lone_words(alloc: Global, word: &str, back: &str) -> Result<String, Memory>
    ensures { IfOk result (λ words. string_bytes words ≡ lone_words word.now back.now) }
{
    let words = format!(in alloc;
        "`{word}` on the right has to be on the left too, to say which one is meant: \
        there is none to the left of `->`, `no` aside{back}"
    )?;
    Ok(words)
}

/// That the left has a word of the right `times` times, and what else is said.
fn several_left_words(alloc: Global, word: &str, times: usize, back: &str) -> Result<String, Memory>
    ensures { IfOk result (λ words. string_bytes words ≡ several_left_words word.now times back.now) }
{
    let words = format!(in alloc;
        "`{word}` on the right means that of the same cell on the left, or else the only one there: \
        the left has {times}{back}"
    )?;
    Ok(words)
}

/// That nothing decides a word of the right.
fn unbound_words(
    alloc: Global,
    word: &str,
    times: usize,
    could: Could<'_>,
) -> Result<String, Memory>
    ensures { IfOk result (λ words. string_bytes words ≡ unbound_words word.now times could.entry) }
{
    let back = could_words(alloc, times, could)?;
    if times == 0 {
        return lone_words(alloc, word, &back);
    }
    several_left_words(alloc, word, times, &back)
}

/// How many rows stand on the two sides.
fn rows_words(alloc: Global, left: usize, right: usize) -> Result<String, Memory>
    ensures { IfOk result (λ words. string_bytes words ≡ rows_words left right) }
{
    let words = format!(in alloc;
        "Both sides of `->` need the same number of rows in brackets: here the left has {left}, \
        the right {right}."
    )?;
    Ok(words)
}

/// How many cells a row has on the two sides.
fn cells_words(alloc: Global, row: usize, left: usize, right: usize) -> Result<String, Memory>
    ensures { IfOk result (λ words. string_bytes words ≡ cells_words row left right) }
{
    let words = format!(in alloc;
        "A row needs the same number of cells on both sides of `->`: here row {row} has {left} on the left, \
        {right} on the right."
    )?;
    Ok(words)
}

/// That two words make no arrow.
fn broken_words(alloc: Global, word: &str, other: &str) -> Result<String, Memory>
    ensures { IfOk result (λ words. string_bytes words ≡ broken_words word.now other.now) }
{
    let words = format!(in alloc;
        "The arrow of a rule is `->`, in one piece: this line has `{other}` and `{word}` in its place."
    )?;
    Ok(words)
}

/// What part of a rule a line is.
fn part_words(part: Part) -> &'static str
    ensures { result.now ≡ part_words part }
{
    match part {
        Part::FromArrow => " begins with `->`.",
        Part::WithoutArrow => " has no `->`.",
    }
}

/// That a rule goes on in a further line.
fn going_on_words(alloc: Global, further: Further) -> Result<String, Memory>
    ensures { IfOk result (λ words. string_bytes words ≡ going_on_words further) }
{
    let line = further.line;
    let part = part_words(further.part);
    let words = format!(in alloc; "A rule is written on one line, but line {line}{part}")?;
    Ok(words)
}

/// What is said about a rule.
pub fn rule_sentence(alloc: Global, cause: RuleCause<'_>) -> Result<String, Memory>
    ensures { IfOk result (λ words. string_bytes words ≡ rule_sentence cause.entry) }
{
    match cause {
        RuleCause::Pair {
            word,
            other,
            shared,
        } => pair_words(alloc, word.text(), other.text(), shared),
        RuleCause::Several { word, declared } => several_words(alloc, word.text(), declared),
        RuleCause::Unbound { word, times, could } => unbound_words(
            alloc,
            word.text(),
            times,
            could,
        ),
        RuleCause::Rows { left, right, .. } => rows_words(alloc, left, right),
        RuleCause::Cells {
            row,
            left,
            right,
            ..
        } => cells_words(alloc, row, left, right),
        RuleCause::BrokenArrow { word, other } => broken_words(alloc, word.text(), other.text()),
        RuleCause::GoesOn { further, .. } => going_on_words(alloc, further),
    }
}
