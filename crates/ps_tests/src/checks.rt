//! Texts that are checked, and the lines on them.

use crate::games::{NAMES, PUSH, PUSHING, repeated};
use ps_check::{CheckFault, check};
use ps_devices::MemoryWriter;
use ps_model::TEXT_LIMIT;
use std::test::Fail;

#[test]
fn tells_how_large_a_game_is(rt: HostRuntime) -> Result<(), Fail> {
    let mut writer = MemoryWriter::new(rt.alloc(), 100, 7)?;
    assert_eq!(rt; check(rt.alloc(), PUSHING, &mut writer), Ok(true));
    assert_eq!(rt;
        writer.bytes(),
        b"ok: objects 9, layers 4, rules 1, levels 1\n".as_slice()
    );
    Ok(())
}

/// Of a text as long as one may be, too, most of it a comment.
#[test]
fn tells_how_large_the_longest_game_is(rt: HostRuntime) -> Result<(), Fail> {
    let front = "(";
    let back = format!(in rt.alloc(); ")\n{NAMES}{PUSH}")?;
    let room = TEXT_LIMIT.saturating_sub(back.as_bytes().len().saturating_add(front.len()));
    let text = repeated(&rt, front, "-", room, back.as_str());
    assert_eq!(rt; text.as_bytes().len(), TEXT_LIMIT);
    let mut writer = MemoryWriter::new(rt.alloc(), 100, 1)?;
    assert_eq!(rt; check(rt.alloc(), text.as_bytes(), &mut writer), Ok(true));
    assert_eq!(rt;
        writer.bytes(),
        b"ok: objects 9, layers 4, rules 1, levels 1\n".as_slice()
    );
    Ok(())
}

/// A game with two rules in a loop and one below it, and with two levels among three messages.
const LOOPING: &[u8] = b"OBJECTS\nBackground .\ngreen\nPlayer P\nwhite\nA\nred\nB\npink\nLEGEND\n\
COLLISIONLAYERS\nBackground\nPlayer, A, B\n\
RULES\nstartloop\n[ A ] -> [ B ]\n+ [ B ] -> [ A ]\nendloop\nright [ moving A ] -> [ A ]\nWINCONDITIONS\n\
LEVELS\nmessage One\n\nPA\n\nmessage Two\nmessage Three\n\nPB\n";

#[test]
fn counts_neither_loops_nor_messages(rt: HostRuntime) -> Result<(), Fail> {
    let mut writer = MemoryWriter::new(rt.alloc(), 100, 1)?;
    assert_eq!(rt; check(rt.alloc(), LOOPING, &mut writer), Ok(true));
    assert_eq!(rt;
        writer.bytes(),
        b"ok: objects 4, layers 2, rules 3, levels 2\n".as_slice()
    );
    Ok(())
}

/// A text whose second header stands too late.
const MIXED_UP: &[u8] = b"LEGEND\nOBJECTS\n";

#[test]
fn tells_the_first_fault(rt: HostRuntime) -> Result<(), Fail> {
    let mut writer = MemoryWriter::new(rt.alloc(), 100, 100)?;
    assert_eq!(rt; check(rt.alloc(), MIXED_UP, &mut writer), Ok(false));
    assert_eq!(rt; writer.bytes(), b"line 2: GM1 SectionOrder\n".as_slice());
    Ok(())
}

#[test]
fn says_that_the_line_was_cut_off(rt: HostRuntime) -> Result<(), Fail> {
    let mut writer = MemoryWriter::new(rt.alloc(), 10, 4)?;
    assert_eq!(rt;
        check(rt.alloc(), MIXED_UP, &mut writer),
        Err(CheckFault::Write)
    );
    assert_eq!(rt; writer.bytes(), b"line 2: GM".as_slice());
    Ok(())
}
