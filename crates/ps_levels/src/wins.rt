//! WINCONDITIONS: when a level is won.

ghost use Rattle.std.specs.Prelude.{◌≡◌, ◌++◌, map, option_map, IfOk};
ghost use Rattle.std.specs.Map.{lookup};
ghost use Rattle.std.specs.Str.{bytes_eq};
ghost use Rattle.ps_model.specs.text.Reads.{ReadsAs};
ghost use Rattle.ps_model.specs.text.LineNumbers.{HasLine, HasLines, here, line_at, lines_between};
ghost use Rattle.ps_model.specs.text.Lines.{folded};
ghost use Rattle.ps_model.specs.names.Names.{meaning_of};
ghost use Rattle.ps_model.specs.board.WinLines.{quantifiers, win_with, win_of_words, place_read, win_read};
ghost use Rattle.ps_model.specs.board.WinLines.{wins_read, win_faults_of, win_faults};
ghost use Rattle.ps_names.specs.Shown.{meaning_shown};
ghost use Rattle.ps_text.specs.WordViews.{text_of};
ghost use Rattle.ps_levels.specs.WinsShown.{words_shown, win_shown, wins_shown, win_of_line};

use ps_model::{Cut, Fault, FaultKind, Memory, Quantifier, Refusal};
use ps_names::{Meaning, Names};
use ps_text::{Source, Text, Word, same_name, words};
use std::alloc::Global;
use std::ops::Range;

/// A win condition: how many cells with its subject are asked for, and where.
#[derive(Drop)]
pub struct Win {
    pub quantifier: Quantifier,
    /// What the cells are to hold.
    pub subject: Meaning,
    /// What else they are to hold, where the condition says `on`.
    pub place: Option<Meaning>,
}

/// A win condition as it is written, by its names.
#[derive(Clone, Copy)]
struct WinWords<'a> {
    quantifier: Quantifier,
    subject: &'a str,
    place: Option<&'a str>,
}

/// What the first word of a win condition asks for.
fn quantifier(word: &str) -> Option<Quantifier>
    ensures { result ≡ lookup (bytes_eq (folded word.now)) quantifiers }
{
    if same_name(word, "no") {
        return Some(Quantifier::No);
    }
    if same_name(word, "some") {
        return Some(Quantifier::Some);
    }
    if same_name(word, "any") {
        return Some(Quantifier::Some);
    }
    if same_name(word, "all") {
        return Some(Quantifier::All);
    }
    None
}

/// The win condition with that first word and these names, if the word is one that begins it.
fn win_with<'a>(word: &str, subject: &'a str, place: Option<&'a str>) -> Option<WinWords<'a>>
    ensures { option_map words_shown result
        ≡ win_with word.now subject.now (option_map (λ name. name.now) place.entry) }
{
    let quantifier = quantifier(word)?;
    Some(WinWords {
        quantifier,
        subject,
        place,
    })
}

/// The win condition that the words of a line are, if they have the form of one.
fn win_of_words<'a>(words: &[Word<'a>]) -> Option<WinWords<'a>>
    ensures { option_map words_shown result ≡ win_of_words (map text_of words.now) }
{
    if words.len() == 2 {
        return win_with(words[0].text(), words[1].text(), None);
    }
    if words.len() != 4 {
        return None;
    }
    if !same_name(words[2].text(), "on") {
        return None;
    }
    win_with(words[0].text(), words[1].text(), Some(words[3].text()))
}

/// What a name stands for, if it is declared. It is looked up with its letters folded, since that finds it at once.
#[tactic(auto, using(ps_laws::proofs::common::Foldings::folded_again))]
fn meaning_of_name(alloc: Global, names: &Names, name: &str) -> Result<Option<Meaning>, Memory>
    ensures { IfOk result (λ meaning. option_map meaning_shown meaning ≡ meaning_of names.now name.now) }
{
    let folded = Text::folded(alloc, name)?;
    let Some(meaning) = names.meaning(folded.as_str()) else {
        return Ok(None);
    };
    let copy = meaning.copied(alloc)?;
    Ok(Some(copy))
}

/// What the name after `on` stands for, if there is none or it is declared.
fn read_place(
    alloc: Global,
    names: &Names,
    place: Option<&str>,
) -> Result<Option<Option<Meaning>>, Memory>
    ensures { IfOk result (λ read. option_map (λ found. option_map meaning_shown found) read
        ≡ place_read names.now (option_map (λ name. name.now) place.entry)) }
{
    let Some(name) = place else {
        return Ok(Some(None));
    };
    let Some(meaning) = meaning_of_name(alloc, names, name)? else {
        return Ok(None);
    };
    Ok(Some(Some(meaning)))
}

/// The win condition with what its names stand for, if they are declared.
fn read_win(alloc: Global, names: &Names, words: WinWords<'_>) -> Result<Option<Win>, Memory>
    ensures { IfOk result (λ win. option_map win_shown win ≡ win_read names.now (words_shown words.entry)) }
{
    let Some(subject) = meaning_of_name(alloc, names, words.subject)? else {
        return Ok(None);
    };
    let Some(place) = read_place(alloc, names, words.place)? else {
        return Ok(None);
    };
    Ok(Some(Win {
        quantifier: words.quantifier,
        subject,
        place,
    }))
}

/// Reads a line that is there: the win condition that it is, or none if it is blank.
pub fn read_line(
    alloc: Global,
    source: &Source,
    line: u32,
    names: &Names,
) -> Result<Option<Win>, Refusal>
    requires { HasLine source.now line }
    ensures { ReadsAs (option_map win_shown) result
        (win_of_line names.now (line_at source.now line)) (win_faults_of names.now (line_at source.now line)) }
{
    let words = words(alloc, source, line, Cut::Blanks)?;
    let Some(words) = win_of_words(&words) else {
        if source.is_blank_line(line) {
            return Ok(None);
        }
        let kind = FaultKind::BadWin;
        return Err(Refusal::Refused(Fault { kind, line }));
    };
    let Some(win) = read_win(alloc, names, words)? else {
        let kind = FaultKind::UnknownWinName;
        return Err(Refusal::Refused(Fault { kind, line }));
    };
    Ok(Some(win))
}

/// Reads a line, if it is there, and adds its win condition to those above it.
fn add_line(
    alloc: Global,
    source: &Source,
    line: u32,
    names: &Names,
    wins: &mut Vec<Win>,
) -> Result<(), Refusal>
    requires { HasLine source.now line }
    ensures { ReadsAs (λ _. wins_shown wins.new.items) result
        (wins_shown wins.old.items ++ wins_read names.now (here source.now line))
        (win_faults names.now (here source.now line)) }
{
    if !source.is_there(line) {
        return Ok(());
    }
    let Some(win) = read_line(alloc, source, line, names)? else {
        return Ok(());
    };
    wins.push(win)?;
    Ok(())
}

/// Reads WINCONDITIONS. It is given by the numbers of the lines right below its header up to the next header, counted
/// from 1. An absent section is an empty range. The conditions are in the order of their lines. Takes time linear in
/// these lines.
///
/// `Refused` with the first fault of the lines, if they have one: `BadWin` (WN1) for a line that is neither blank nor a
/// win condition, `UnknownWinName` (WN2) for a name that isn't declared. `Memory` if a growth was refused.
pub fn read_wins(
    alloc: Global,
    source: &Source,
    lines: Range<u32>,
    names: &Names,
) -> Result<Vec<Win>, Refusal>
    requires { HasLines source.now lines.start lines.end }
    ensures { ReadsAs (λ wins. wins_shown wins.items) result
        (wins_read names.now (lines_between source.now lines.start lines.end))
        (win_faults names.now (lines_between source.now lines.start lines.end)) }
{
    let mut wins = Vec::new(alloc);
    for line in lines.start..lines.end {
        add_line(alloc, source, line, names, &mut wins)?;
    }
    Ok(wins)
}
