//! Levels of a text, and the lines that tell whether they can be won.

use ps_answers::{Form, LevelSolver, LevelTeller, RunSoFar, SolvableGame, ToldAfter};
use ps_devices::MemoryWriter;
use ps_model::Refusal;
use ps_solve::{GameSolver, SolvableText, Unwatched};
use std::process::Abort;
use std::test::Fail;

/// A game of three entries, a level, a message and a level.
const GAME: &str =
    "title T\nOBJECTS\nBackground .\ngreen\nPlayer P\nwhite\nCrate *\norange\nTarget O\nblue\nLEGEND\n\
    COLLISIONLAYERS\nBackground\nTarget\nPlayer, Crate\nRULES\n[ > Player | Crate ] -> [ > Player | > Crate ]\n\
    WINCONDITIONS\nAll Target on Crate\nLEVELS\nP*O\n\nmessage Hello\n\nO*P.\n";

/// The game of the text.
fn opened(rt: &(impl Abort + AllocGlobal)) -> SolvableText {
    GameSolver
        .open(rt.alloc(), GAME.as_bytes())
        .expect(rt, "a game")
}

/// Whether the lines on a level, or on all of them, say this.
fn says(rt: &(impl Abort + AllocGlobal), level: Option<usize>, wanted: &str) -> Result<(), Fail> {
    let game = opened(rt);
    let mut writer = MemoryWriter::new(rt.alloc(), 100, 100)?;
    let mut teller = LevelTeller {
        alloc: rt.alloc(),
        game: &game,
        watcher: &mut Unwatched,
        form: Form::Line,
        name: "a.game",
        limit: 100,
    };
    let told = teller.tell(level, &mut writer)?;
    assert_eq!(rt; told, Some(true));
    assert!(rt; writer.bytes() == wanted.as_bytes());
    Ok(())
}

#[test]
fn messages_are_no_levels(rt: HostRuntime) {
    assert_eq!(rt; opened(&rt).level_count(), 2);
}

#[test]
fn each_level_has_its_line(rt: HostRuntime) -> Result<(), Fail> {
    says(&rt, Some(1), "level 1: won in 1 key: d\n")?;
    says(&rt, Some(2), "level 2: won in 1 key: a\n")?;
    says(
        &rt,
        None,
        "level 1: won in 1 key: d\nlevel 2: won in 1 key: a\n",
    )
}

/// Whether this is told, and answered, after keys of a run that began at a level, or at the start.
fn says_after(
    rt: &(impl Abort + AllocGlobal),
    run: RunSoFar<'_>,
    wanted: &str,
    answered: ToldAfter,
) -> Result<(), Fail> {
    let game = opened(rt);
    let mut writer = MemoryWriter::new(rt.alloc(), 100, 100)?;
    let mut teller = LevelTeller {
        alloc: rt.alloc(),
        game: &game,
        watcher: &mut Unwatched,
        form: Form::Line,
        name: "a.game",
        limit: 100,
    };
    let told = teller.tell_after(run, &mut writer)?;
    assert_eq!(rt; told, answered);
    assert!(rt; writer.bytes() == wanted.as_bytes());
    Ok(())
}

#[test]
fn the_level_has_a_line_to_which_keys_lead(rt: HostRuntime) -> Result<(), Fail> {
    let run = RunSoFar {
        level: None,
        keys: b"wdx",
    };
    let won = ToldAfter::Line { is_won: true };
    says_after(&rt, run, "level 2: won in 1 key: a\n", won)?;
    let run = RunSoFar {
        level: Some(2),
        keys: b"as",
    };
    says_after(&rt, run, "", ToldAfter::NoLevel)?;
    let run = RunSoFar {
        level: Some(2),
        keys: b"d",
    };
    says_after(&rt, run, "level 2: won in 2 keys: aa\n", won)
}

#[test]
fn no_level_has_a_line_at_a_message_or_beyond_the_last_one(rt: HostRuntime) -> Result<(), Fail> {
    let run = RunSoFar {
        level: Some(1),
        keys: b"d",
    };
    says_after(&rt, run, "", ToldAfter::NoLevel)?;
    let run = RunSoFar {
        level: Some(3),
        keys: b"d",
    };
    let lacking = ToldAfter::NoSuchLevel {
        level: 3,
        levels: 2,
    };
    says_after(&rt, run, "", lacking)
}

#[test]
fn a_text_with_a_fault_has_no_levels(rt: HostRuntime) {
    match GameSolver.open(rt.alloc(), b"title T\n") {
        Err(Refusal::Refused(_)) => {}
        _ => assert!(rt; false),
    }
}
