//! Texts that are made here: those that are cut off, the longest ones, and long chains of names.

use crate::games::{PUSHING, joined, repeated};
use ps_check::first_fault;
use ps_devices::{MemoryReader, MemoryWriter};
use ps_model::{CALL_LIMIT, Ending, Fault, FaultKind, TEXT_LIMIT};
use ps_run::run;
use std::process::Abort;
use std::test::Fail;

/// A small game, up to the names of its legend.
const OBJECTS: &str =
    "title T\nOBJECTS\nBackground .\ngreen\nWall #\nbrown\nPlayer P\nwhite\nCrate *\norange\n\
    Target O\nblue\nA\nred\nB\npink\nC\ngray\nD\nblack\nLEGEND\n";

/// Its layers, a rule that pushes, a win condition and a level of one row.
const REST: &str = "COLLISIONLAYERS\nBackground\nTarget\nPlayer, Wall, Crate\nA B C D\nRULES\n\
    [ > Player | Crate ] -> [ > Player | > Crate ]\nWINCONDITIONS\nAll Target on Crate\nLEVELS\n#P*O#\n";

/// A fault, as the first of a text.
fn found(kind: FaultKind, line: u32) -> Option<Fault> {
    Some(Fault { kind, line })
}

/// How many lines a text has; an empty text has one, and a line feed at the end begins no further one.
fn lines_of(text: &[u8]) -> u32 {
    let mut lines = 1u32;
    for byte in text.iter().take(text.len().saturating_sub(1)) {
        if *byte == b'\n' {
            lines = lines.saturating_add(1);
        }
    }
    lines
}

#[test]
fn reads_a_text_cut_behind_each_byte(rt: HostRuntime) {
    assert_eq!(rt; PUSHING.len(), 326);
    for end in 0..327usize {
        let front = &PUSHING[..end.min(PUSHING.len())];
        let wanted = if end < 320 {
            found(FaultKind::NoSection, lines_of(front))
        } else if end < 322 {
            found(FaultKind::NoLevel, 33)
        } else {
            None
        };
        assert_eq!(rt;
            first_fault(rt.alloc(), front),
            Ok(wanted),
            "cut behind {end}"
        );
    }
}

#[test]
fn refuses_a_text_by_its_length(rt: HostRuntime) -> Result<(), Fail> {
    let mut text = Vec::from_elem(rt.alloc(), b'(', TEXT_LIMIT)?;
    assert_eq!(rt;
        first_fault(rt.alloc(), &text),
        Ok(found(FaultKind::NoSection, 1))
    );
    text.push(b'(')?;
    assert_eq!(rt;
        first_fault(rt.alloc(), &text),
        Ok(found(FaultKind::TooLong, 1))
    );
    Ok(())
}

/// What stands after OBJECTS in a game that takes objects away: each of its names may mean objects of several layers.
const LAYERS: &str =
    "COLLISIONLAYERS\nBackground\nTarget\nPlayer, Wall, Crate\nA\nB\nC\nD\nRULES\n";

#[test]
fn refuses_the_longest_text_of_line_feeds(rt: HostRuntime) -> Result<(), Fail> {
    let feeds = Vec::from_elem(rt.alloc(), b'\n', TEXT_LIMIT)?;
    assert_eq!(rt;
        first_fault(rt.alloc(), &feeds),
        Ok(found(FaultKind::NoSection, 1048576))
    );
    Ok(())
}

#[test]
fn refuses_the_longest_text_by_its_line(rt: HostRuntime) {
    let front = joined(&rt, &[OBJECTS, LAYERS, "[ "]);
    let back = " ] -> [ ]\nLEVELS\nP\n";
    let others = front.as_bytes().len().saturating_add(back.len());
    let count = TEXT_LIMIT.saturating_sub(others);
    let text = repeated(&rt, front.as_str(), ">", count, back);
    assert_eq!(rt; text.as_bytes().len(), TEXT_LIMIT);
    assert_eq!(rt;
        first_fault(rt.alloc(), text.as_bytes()),
        Ok(found(FaultKind::UnknownWord, 31))
    );
}

/// Adds a line to a legend, which declares the name of a letter and a number as `meaning`.
fn declare(rt: &(impl Abort + AllocGlobal), legend: &mut String, name: (&str, u32), meaning: &str) {
    let (letter, number) = name;
    let line = format!(in rt.alloc(); "{letter}{number} = {meaning}\n");
    let line = line.expect(rt, "memory for a line");
    legend
        .push_str(line.as_str())
        .expect(rt, "memory for a legend");
}

/// Adds a line to a legend, and what stands after it. It declares the name of a letter and a number by that of the next
/// number.
fn declare_by_next(
    rt: &(impl Abort + AllocGlobal),
    legend: &mut String,
    name: (&str, u32),
    behind: &str,
) {
    let (letter, number) = name;
    let next = number.saturating_add(1);
    let meaning = format!(in rt.alloc(); "{letter}{next}{behind}");
    let meaning = meaning.expect(rt, "memory for a meaning");
    declare(rt, legend, name, meaning.as_str());
}

/// The lines `S1 = S2`, `S2 = S3` and so on, for the letter `S`, each with `behind` at its end, and the last one of
/// `last`.
fn chain_of(
    rt: &(impl Abort + AllocGlobal),
    letter: &str,
    length: u32,
    behind: &str,
    last: &str,
) -> String {
    let mut legend = String::new(rt.alloc());
    for number in 1..length {
        declare_by_next(rt, &mut legend, (letter, number), behind);
    }
    declare(rt, &mut legend, (letter, length), last);
    legend
}

/// The synonyms `S1 = S2`, `S2 = S3` and so on, the last one of `last`.
fn synonyms(rt: &(impl Abort + AllocGlobal), length: u32, last: &str) -> String {
    chain_of(rt, "S", length, "", last)
}

/// A game with ten thousand such synonyms, from line 22 of the text on.
fn chain(rt: &(impl Abort + AllocGlobal), last: &str) -> String {
    let legend = synonyms(rt, 10000, last);
    joined(
        rt,
        &[OBJECTS, legend.as_str(), "@ = Crate and Target\n", REST],
    )
}

#[test]
fn reads_a_chain_of_ten_thousand_synonyms(rt: HostRuntime) {
    let text = chain(&rt, "A");
    assert_eq!(rt; first_fault(rt.alloc(), text.as_bytes()), Ok(None));
}

#[test]
fn finds_a_chain_that_ends_in_itself(rt: HostRuntime) {
    for (last, line) in [
        ("S1", 22),
        ("S5000", 5021),
        ("S9000", 9021),
        ("S10000", 10021),
    ] {
        let circle = chain(&rt, last);
        let wanted = found(FaultKind::Cycle, line);
        assert_eq!(rt; first_fault(rt.alloc(), circle.as_bytes()), Ok(wanted));
    }
}

/// The lines of a legend, its last line first.
fn turned_round(rt: &(impl Abort + AllocGlobal), legend: &str) -> String {
    let mut turned = String::new(rt.alloc());
    for line in legend.lines().rev() {
        turned.push_str(line).expect(rt, "memory for a line");
        turned.push_str("\n").expect(rt, "memory for a line");
    }
    turned
}

/// A game with this legend and this row of a level. The key `x` takes an object away that the first of the names
/// means, and `w` one that the second means: of the objects that a name means the first that is there.
fn taking(
    rt: &(impl Abort + AllocGlobal),
    legend: &str,
    names: (&str, &str),
    level: &str,
) -> String {
    let (first, second) = names;
    let opening = "[ action Player ] [ ";
    let between = " ] -> [ Player ] [ ]\n[ up Player ] [ ";
    let ending = " ] -> [ Player ] [ ]\nLEVELS\n";
    joined(
        rt,
        &[
            OBJECTS, legend, LAYERS, opening, first, between, second, ending, level, "\n",
        ],
    )
}

/// Plays a game to the end of its keys, and compares its frames.
fn expect_frames(rt: &(impl Abort + AllocGlobal), text: &str, keys: &str, frames: &str) {
    let wanted = joined(rt, &["= T\n# level 1\n", frames, "* end of keys\n"]);
    expect_written(rt, text, keys, wanted.as_str());
}

/// Plays a game to the end of its keys.
fn expect_written(rt: &(impl Abort + AllocGlobal), text: &str, keys: &str, wanted: &str) {
    let output = MemoryWriter::new(rt.alloc(), 1000, CALL_LIMIT);
    let mut output = output.expect(rt, "memory for the output");
    let mut reader = MemoryReader::new(keys.as_bytes(), 1, None);
    let answer = run(rt.alloc(), text.as_bytes(), &mut reader, &mut output);
    assert_eq!(rt; answer, Ok(Ending::EndOfKeys));
    assert_eq!(rt; output.bytes(), wanted.as_bytes());
}

#[test]
fn plays_by_a_long_chain_of_synonyms(rt: HostRuntime) {
    let legend = synonyms(&rt, 10001, "B");
    let text = taking(&rt, legend.as_str(), ("S1", "s10000"), "PBAB");
    expect_frames(&rt, text.as_str(), "xw", "PBAB\n\nP.AB\n\nP.A.\n\n");
}

#[test]
fn plays_by_a_long_chain_that_is_turned_round(rt: HostRuntime) {
    let legend = synonyms(&rt, 10001, "B or C or B");
    let legend = turned_round(&rt, legend.as_str());
    let text = taking(&rt, legend.as_str(), ("s1", "S10001"), "PCBCB");
    let frames = "PCBCB\n\nPC.CB\n\nPC.C.\n\nP..C.\n\nP....\n\n";
    expect_frames(&rt, text.as_str(), "xwxw", frames);
}

/// The properties `N1 = N2 or A`, `N2 = N3 or A` and so on, the last one a synonym of `B`.
#[test]
fn plays_by_a_long_chain_of_properties(rt: HostRuntime) {
    let legend = chain_of(&rt, "N", 40001, " or A", "B");
    let text = taking(&rt, legend.as_str(), ("N1", "n40000"), "PABAB");
    let frames = "PABAB\n\nPA.AB\n\nPA.A.\n\nP..A.\n\nP....\n\n";
    expect_frames(&rt, text.as_str(), "xwxw", frames);
}
