//! Sessions of which a key is refused a growth: session and output are as before the key then. The same key, tried
//! again, does what it does where nothing is refused. As the tests run by themselves nothing is refused;
//! `tools/refuse_growths` plays them with each growth refused in turn.

ghost use Rattle.ps_model.specs.session.RoomSizes.{HasRoomSize};
ghost use Rattle.ps_stage.specs.Playable.{ArePlayable};

use crate::games::NAMES;
use crate::playable::playable_game;
use ps_compile::{CompiledPrograms, compile};
use ps_game::Game;
use ps_model::{Ending, Input, Key};
use ps_rulebook::{OneWord, RowBoard, RowHistory, WORD_BITS, rules_of_sections};
use ps_session::{BoardSides, OutputText, Phase, Session, SessionGame, Stop};
use ps_turn::{Rules, TurnRules};
use std::alloc::Global;
use std::process::Abort;

const LEFT: Key = Key::Move(Input::Left);

const RIGHT: Key = Key::Move(Input::Right);

const ACTION: Key = Key::Move(Input::Action);

/// A key, what it writes, and what the player may do after it.
type Step<'a> = (Key, &'a str, Phase);

/// Whether bytes are an opening and the texts of these steps, and nothing else.
fn are_texts(bytes: &[u8], opening: &str, steps: &[Step<'_>]) -> bool {
    let Some(mut rest) = bytes.strip_prefix(opening.as_bytes()) else {
        return false;
    };
    for (_, text, _) in steps {
        let Some(behind) = rest.strip_prefix(text.as_bytes()) else {
            return false;
        };
        rest = behind;
    }
    rest.is_empty()
}

/// Whether memory is refused now.
fn is_refused(alloc: Global) -> bool {
    Vec::<u8>::with_capacity(alloc, 1).is_err()
}

/// Plays a session by keys, each of which is tried again where it was refused a growth.
fn expect_session_again<'g, R: Rules<RowBoard<OneWord>> + Drop>(
    rt: &(impl Abort + AllocGlobal),
    session: &mut Session<'g, RowBoard<OneWord>, RowHistory<OneWord>>,
    rules: &mut TurnRules<R>,
    output: &mut OutputText,
    opening: &str,
    steps: &[Step<'_>],
) {
    for number in 0..steps.len() {
        let (before, _) = steps.split_at(number);
        let (through, _) = steps.split_at(number + 1);
        let (key, _, phase) = steps[number];
        let was = session.phase();
        let mut answer = session.key(rules, key, output);
        if let Err(Stop::Memory) = answer {
            assert_eq!(rt; session.phase(), was);
            assert!(rt; are_texts(output.bytes(), opening, before));
            answer = session.key(rules, key, output);
        }
        if let Err(Stop::Memory) = answer {
            assert_eq!(rt; session.phase(), was);
            assert!(rt; are_texts(output.bytes(), opening, before));
            assert!(rt; is_refused(rt.alloc()));
            return;
        }
        assert_eq!(rt; session.phase(), phase);
        assert!(rt; are_texts(output.bytes(), opening, through));
    }
}

/// Plays a game by its compiled programs and by keys, each of which is tried again where it was refused a growth.
fn expect_programs_again(
    rt: &(impl Abort + AllocGlobal),
    game: &Game,
    programs: &CompiledPrograms,
    opening: &str,
    steps: &[Step<'_>],
)
    requires playable { ArePlayable game.now.names game.now.entries }
    requires rooms { HasRoomSize game.now.options }
{
    let title = game.title.as_str();
    let parts = SessionGame::new(title, game.options, &game.names, &game.entries, &game.wins);
    assert!(rt; parts.side_at(0) <= WORD_BITS);
    let sections = (programs.plain.sections(), programs.late.sections());
    let Ok(mut rules) = rules_of_sections(rt.alloc(), sections.0, sections.1) else {
        return;
    };
    let mut output = OutputText::new(rt.alloc());
    if let Err(_) = output.add_line("= ", title) {
        return;
    }
    let parts = parts.on_boards(BoardSides {
        above: 0,
        most: WORD_BITS,
    });
    let started = Session::<RowBoard<OneWord>, RowHistory<OneWord>>::start_at(
        rt.alloc(),
        parts,
        &mut rules,
        0,
        &mut output,
    );
    let Ok(mut session) = started else {
        assert!(rt; are_texts(output.bytes(), "= T\n", &[]));
        return;
    };
    expect_session_again(rt, &mut session, &mut rules, &mut output, opening, steps);
}

/// Plays a game by keys, each of which is tried again where it was refused a growth. Nothing is looked at where memory
/// is refused before the first key. A function that lends a game and its programs has few return paths, each of which
/// drops them.
fn expect_keys_again(
    rt: &(impl Abort + AllocGlobal),
    lines: &str,
    opening: &str,
    steps: &[Step<'_>],
) {
    let Ok(text) = format!(in rt.alloc(); "title T\n{NAMES}{lines}") else {
        return;
    };
    let Ok(game) = playable_game(rt.alloc(), text.as_bytes()) else {
        return;
    };
    let Ok(programs) = compile(rt.alloc(), &game.names, &game.rules) else {
        return;
    };
    expect_programs_again(rt, &game, &programs, opening, steps);
}

#[test]
fn keys_of_a_push_are_tried_again(rt: HostRuntime) {
    let lines =
        "RULES\n[ > Player | Crate ] -> [ > Player | > Crate ]\nWINCONDITIONS\nAll Target on Crate\nLEVELS\n\
        message Push!\n#P*.O#\nmessage Pushed\nP.\n";
    let steps = [
        (ACTION, "# level 1\n#P*.O#\n\n", Phase::Playing),
        (RIGHT, "#.P*O#\n\n", Phase::Playing),
        (LEFT, "#P.*O#\n\n", Phase::Playing),
        (Key::Undo, "#.P*O#\n\n", Phase::Playing),
        (Key::Restart, "#P*.O#\n\n", Phase::Playing),
        (Key::Undo, "#.P*O#\n\n", Phase::Playing),
        (
            RIGHT,
            "#..P@#\n\n* level 1 done\n! Pushed\n",
            Phase::Message,
        ),
        (ACTION, "# level 2\nP.\n\n", Phase::Playing),
        (
            RIGHT,
            ".P\n\n* level 2 done\n* the end\n",
            Phase::Ended(Ending::TheEnd),
        ),
    ];
    expect_keys_again(&rt, lines, "= T\n! Push!\n", &steps);
}

#[test]
fn keys_of_again_turns_are_tried_again(rt: HostRuntime) {
    let lines =
        "RULES\nstartloop\nright [ AT | ... | B ] -> [ AT | ... | C ]\nendloop\nlate [ C ] -> [ D ]\n\
        [ action Player ] [ A ] -> [ Player ] [ B ] again message Two\nLEVELS\nOPA\n";
    let steps = [
        (ACTION, "OPB\n\n! Two\n", Phase::Message),
        (ACTION, "OPD\n\n", Phase::Playing),
        (Key::Undo, "OPA\n\n", Phase::Playing),
        (ACTION, "OPB\n\n! Two\n", Phase::Message),
        (ACTION, "OPD\n\n", Phase::Playing),
        (Key::Quit, "* quit\n", Phase::Ended(Ending::Quit)),
    ];
    expect_keys_again(&rt, lines, "= T\n# level 1\nOPA\n\n", &steps);
}

#[test]
fn keys_of_checkpoints_are_tried_again(rt: HostRuntime) {
    let lines = "RULES\n[ action Player ] -> checkpoint\nLEVELS\nP...\n";
    let steps = [
        (RIGHT, ".P..\n\n", Phase::Playing),
        (ACTION, ".P..\n\n", Phase::Playing),
        (RIGHT, "..P.\n\n", Phase::Playing),
        (Key::Restart, ".P..\n\n", Phase::Playing),
        (Key::Undo, "..P.\n\n", Phase::Playing),
        (Key::Undo, ".P..\n\n", Phase::Playing),
        (RIGHT, "..P.\n\n", Phase::Playing),
        (Key::Quit, "* quit\n", Phase::Ended(Ending::Quit)),
    ];
    expect_keys_again(&rt, lines, "= T\n# level 1\nP...\n\n", &steps);
}
