//! Runs for which memory is refused. As the tests run by themselves each game is played to its end;
//! `tools/refuse_growths` plays them with each growth refused in turn, and then it is looked at what that leaves.

use crate::games::NAMES;
use ps_devices::{MemoryReader, MemoryWriter};
use ps_model::CALL_LIMIT;
use ps_run::{RunFault, run};
use std::process::Abort;

/// How many of the texts, from the first on, `written` is made of, if it is made of whole ones.
fn whole_texts(written: &[u8], texts: &[&str]) -> Option<usize> {
    let mut rest = written;
    let mut count = 0usize;
    for text in texts {
        if rest.is_empty() {
            return Some(count);
        }
        rest = rest.strip_prefix(text.as_bytes())?;
        count = count.saturating_add(1);
    }
    if rest.is_empty() { Some(count) } else { None }
}

/// Plays a game of which the opening and then each key writes one of the texts: it writes them all, or memory is
/// refused. Then it has written the opening and the whole texts of all keys that were read before the last one, or
/// nothing at all.
fn expect_whole_texts(rt: &(impl Abort + AllocGlobal), lines: &str, keys: &str, texts: &[&str]) {
    let Ok(text) = format!(in rt.alloc(); "title T\n{NAMES}{lines}") else {
        return;
    };
    let Ok(mut writer) = MemoryWriter::new(rt.alloc(), 1000, CALL_LIMIT) else {
        return;
    };
    let mut reader = MemoryReader::new(keys.as_bytes(), 1, None);
    let answer = run(rt.alloc(), text.as_bytes(), &mut reader, &mut writer);
    let count = whole_texts(writer.bytes(), texts).expect(rt, "whole texts");
    match answer {
        Ok(_ending) => assert_eq!(rt; count, texts.len()),
        Err(fault) => {
            assert_eq!(rt; fault, RunFault::Memory);
            assert!(rt; reader.given() <= count);
        }
    }
}

#[test]
fn a_push_is_written_by_whole_texts(rt: HostRuntime) {
    let lines =
        "RULES\n[ > Player | Crate ] -> [ > Player | > Crate ]\nWINCONDITIONS\nAll Target on Crate\nLEVELS\n\
        message Push!\n#P*O#\n";
    let texts = [
        "= T\n! Push!\n",
        "# level 1\n#P*O#\n\n",
        "#.P@#\n\n* level 1 done\n* the end\n",
    ];
    expect_whole_texts(&rt, lines, "xd", &texts);
}

#[test]
fn again_turns_are_written_by_whole_texts(rt: HostRuntime) {
    let lines =
        "RULES\nstartloop\nright [ AT | ... | B ] -> [ AT | ... | C ]\nendloop\nlate [ C ] -> [ D ]\n\
        [ action Player ] [ A ] -> [ Player ] [ B ] again message Two\nLEVELS\nOPA\n";
    let texts = [
        "= T\n# level 1\nOPA\n\n",
        "OPB\n\n! Two\n",
        "OPD\n\n",
        "* end of keys\n",
    ];
    expect_whole_texts(&rt, lines, "xx", &texts);
}

#[test]
fn checkpoints_are_written_by_whole_texts(rt: HostRuntime) {
    let lines = "RULES\n[ action Player ] -> checkpoint\nLEVELS\nP...\n";
    let texts = [
        "= T\n# level 1\nP...\n\n",
        ".P..\n\n",
        ".P..\n\n",
        "..P.\n\n",
        ".P..\n\n",
        "..P.\n\n",
        "* quit\n",
    ];
    expect_whole_texts(&rt, lines, "dxdrzq", &texts);
}
