//! Runs by what they ask of their devices: pieces of any size, failures, and how often each device is called.

ghost use Rattle.std.specs.Prelude.{◌≡◌, ◌≤◌, None};

use crate::games::{NAMES, PUSH, PUSHED};
use crate::watched::Watched;
use ps_devices::{ByteReader, Failed, MemoryReader, MemoryWriter};
use ps_model::{CALL_LIMIT, Ending, Memory, READ_LIMIT};
use ps_run::{RunFault, run};
use std::alloc::Global;
use std::process::Abort;

/// A player with two free cells at its right.
const WALK: &str = "RULES\nWINCONDITIONS\nLEVELS\nP..\n";

/// What the walk writes before its first key, and with the keys `dd`.
const BEGUN: &str = "= T\n# level 1\nP..\n\n";

const WALKED: &str = "= T\n# level 1\nP..\n\n.P.\n\n..P\n\n";

/// A player with 63 free cells at its right.
const WIDE: &str =
    "RULES\nWINCONDITIONS\nLEVELS\nP...............................................................\n";

/// The devices of a run: the most bytes that a call of the reader gives, and where it fails, if it does; the most bytes
/// that a call of the writer takes, and for how many it has room.
#[derive(Clone, Copy)]
struct Setting {
    gives: usize,
    fails_at: Option<usize>,
    takes: usize,
    room: usize,
}

/// What devices saw of a run, and what the run answered.
#[derive(Clone, Copy, PartialEq, Eq, Debug)]
struct Seen {
    answer: Result<Ending, RunFault>,
    given: usize,
    reads: u32,
    writes: u32,
}

/// Plays a game and compares what is written with `wanted`. No device is called after its end or its failure, and no
/// read asks for too much.
fn watch(
    rt: &(impl Abort + AllocGlobal),
    lines: &str,
    keys: &[u8],
    setting: Setting,
    wanted: &[u8],
) -> Seen
    requires { 1 ≤ setting.gives }
{
    let text = format!(in rt.alloc(); "title T\n{NAMES}{lines}").expect(rt, "memory for the text");
    let mut reader = Watched::new(MemoryReader::new(keys, setting.gives, setting.fails_at));
    let writer = MemoryWriter::new(rt.alloc(), setting.room, setting.takes);
    let mut writer = Watched::new(writer.expect(rt, "memory for the output"));
    let answer = run(rt.alloc(), text.as_bytes(), &mut reader, &mut writer);
    assert_eq!(rt; writer.device.bytes(), wanted);
    assert_eq!(rt; reader.late, 0);
    assert_eq!(rt; writer.late, 0);
    assert!(rt; reader.most <= CALL_LIMIT);
    Seen {
        answer,
        given: reader.device.given(),
        reads: reader.calls,
        writes: writer.calls,
    }
}

/// Devices that don't fail.
fn well(gives: usize, takes: usize) -> Setting
    ensures { result.gives ≡ gives }
{
    Setting {
        gives,
        fails_at: None,
        takes,
        room: 1000,
    }
}

#[test]
fn a_writer_that_fails_has_the_bytes_before(rt: HostRuntime) {
    let pushed = PUSHED.as_bytes();
    for room in 0..pushed.len() {
        let (front, _) = pushed.split_at(room);
        for takes in [1, 7, CALL_LIMIT] {
            let setting = Setting {
                gives: 1,
                fails_at: None,
                takes,
                room,
            };
            let seen = watch(&rt, PUSH, b"d", setting, front);
            assert_eq!(rt; seen.answer, Err(RunFault::Write), "room for {room}");
        }
    }
}

#[test]
fn a_writer_that_takes_nothing_has_failed(rt: HostRuntime) {
    let seen = watch(&rt, PUSH, b"d", well(1, 0), b"");
    let wanted = Seen {
        answer: Err(RunFault::Write),
        given: 0,
        reads: 0,
        writes: 1,
    };
    assert_eq!(rt; seen, wanted);
}

/// Each key is played before the next one is read.
#[test]
fn no_key_is_read_behind_a_failed_write(rt: HostRuntime) {
    let setting = Setting {
        gives: 1,
        fails_at: None,
        takes: CALL_LIMIT,
        room: 26,
    };
    let front = b"= T\n# level 1\nP..\n\n.P.\n\n..";
    let wanted = Seen {
        answer: Err(RunFault::Write),
        given: 2,
        reads: 2,
        writes: 4,
    };
    assert_eq!(rt; watch(&rt, WALK, b"dddq", setting, front), wanted);
}

#[test]
fn no_key_is_read_behind_the_end(rt: HostRuntime) {
    let quit = b"= T\n# level 1\nP..\n\n.P.\n\n..P\n\n..P\n\n* quit\n";
    let mut wanted = Seen {
        answer: Ok(Ending::Quit),
        given: 4,
        reads: 4,
        writes: 5,
    };
    assert_eq!(rt;
        watch(&rt, WALK, b"dddqdq", well(1, CALL_LIMIT), quit),
        wanted
    );
    wanted.given = 6;
    wanted.reads = 1;
    wanted.writes = 2;
    assert_eq!(rt;
        watch(&rt, WALK, b"dddqdq", well(CALL_LIMIT, CALL_LIMIT), quit),
        wanted
    );
    let ended = Seen {
        answer: Ok(Ending::TheEnd),
        given: 1,
        reads: 1,
        writes: 2,
    };
    assert_eq!(rt;
        watch(&rt, PUSH, b"ddd", well(1, CALL_LIMIT), PUSHED.as_bytes()),
        ended
    );
}

/// Bytes that are no keys bring no write, nor does an arrow that isn't whole. Keys that come one at a time bring one
/// each.
#[test]
fn a_key_brings_one_write(rt: HostRuntime) {
    let walked = b"= T\n# level 1\nP..\n\n.P.\n\n..P\n\n* end of keys\n";
    let wanted = Seen {
        answer: Ok(Ending::EndOfKeys),
        given: 9,
        reads: 10,
        writes: 4,
    };
    assert_eq!(rt;
        watch(
            &rt,
            WALK,
            b"kd\x1bQ\x1b[C\x1b[",
            well(1, CALL_LIMIT),
            walked
        ),
        wanted
    );
}

/// Puts a frame of [`WIDE`] last, with the player in that column.
fn put_frame(frames: &mut Vec<u8>, column: usize) -> Result<(), Memory> {
    for place in 0..64usize {
        let cell = if place == column { b'P' } else { b'.' };
        frames.push(cell)?;
    }
    frames.push(b'\n')?;
    frames.push(b'\n')?;
    Ok(())
}

/// What [`WIDE`] writes up to the frame of the last of `keys` keys `d`: the player comes to the edge, and stays there.
fn walked_wide(alloc: Global, keys: usize) -> Result<Vec<u8>, Memory> {
    let mut written = Vec::from_slice(alloc, b"= T\n# level 1\n")?;
    for key in 0..=keys {
        put_frame(&mut written, key.min(63))?;
    }
    Ok(written)
}

/// The texts of a piece of keys are gathered, up to 65,536 bytes: 992 frames of 66 bytes have room, and 992, and 16.
#[test]
fn texts_of_many_bytes_are_written_in_several_calls(rt: HostRuntime) -> Result<(), Memory> {
    let keys = [b'd'; 2000];
    let mut walked = walked_wide(rt.alloc(), keys.len())?;
    assert_eq!(rt; walked.len(), 80 + 2000 * 66);
    walked.extend_from_slice(b"* end of keys\n")?;
    let setting = Setting {
        gives: CALL_LIMIT,
        fails_at: None,
        takes: 140_000,
        room: 140_000,
    };
    let wanted = Seen {
        answer: Ok(Ending::EndOfKeys),
        given: 2000,
        reads: 2,
        writes: 5,
    };
    assert_eq!(rt; watch(&rt, WIDE, &keys, setting, walked.as_slice()), wanted);
    Ok(())
}

#[test]
fn a_reader_that_fails_leaves_the_texts_before(rt: HostRuntime) {
    let mut setting = Setting {
        gives: 1,
        fails_at: Some(0),
        takes: CALL_LIMIT,
        room: 1000,
    };
    let mut wanted = Seen {
        answer: Err(RunFault::Read),
        given: 0,
        reads: 1,
        writes: 1,
    };
    assert_eq!(rt; watch(&rt, WALK, b"ddd", setting, BEGUN.as_bytes()), wanted);
    setting.fails_at = Some(2);
    wanted.given = 2;
    wanted.reads = 3;
    wanted.writes = 3;
    assert_eq!(rt;
        watch(&rt, WALK, b"ddd", setting, WALKED.as_bytes()),
        wanted
    );
    setting.gives = CALL_LIMIT;
    wanted.reads = 2;
    wanted.writes = 2;
    assert_eq!(rt;
        watch(&rt, WALK, b"ddd", setting, WALKED.as_bytes()),
        wanted
    );
}

/// A reader that gives three bytes by turns, for ever.
#[derive(Drop)]
struct Endless<'a> {
    bytes: &'a [u8; 3],
    calls: u64,
    last: usize,
    empty_calls: u64,
    odd_sized_calls: u64,
    has_failed: bool,
    ghost empty: { empty_calls ≤ calls },
    ghost odd_sized: { odd_sized_calls ≤ calls },
}

impl<'a> ByteReader for Endless<'a> {
    ghost state = { λ reader. record {
      remaining = None;
      has_failed = reader.has_failed;
      last = reader.last;
      calls = reader.calls;
      empty_calls = reader.empty_calls;
      odd_sized_calls = reader.odd_sized_calls;
    } };

    fn read_some(&mut self, buffer: &mut [u8]) -> Result<usize, Failed> {
        self.last = 0;
        if self.calls == u64::MAX {
            self.has_failed = true;
            return Err(Failed);
        }
        let byte = self.bytes[(self.calls % 3) as usize];
        self.calls += 1;
        if buffer.len() != CALL_LIMIT {
            self.odd_sized_calls += 1;
        }
        if buffer.is_empty() {
            self.empty_calls += 1;
            return Ok(0);
        }
        buffer[0] = byte;
        self.last = 1;
        Ok(1)
    }
}

/// Plays the walk by three bytes by turns, which are no key, and looks that nothing is written for them.
fn expect_read_up_to_the_limit(rt: &(impl Abort + AllocGlobal), bytes: &[u8; 3]) {
    let text = format!(in rt.alloc(); "title T\n{NAMES}{WALK}").expect(rt, "memory for the text");
    let mut reader = Endless {
        bytes,
        calls: 0,
        last: 0,
        empty_calls: 0,
        odd_sized_calls: 0,
        has_failed: false,
    };
    let writer = MemoryWriter::new(rt.alloc(), 100, 100);
    let mut writer = writer.expect(rt, "memory for the output");
    let answer = run(rt.alloc(), text.as_bytes(), &mut reader, &mut writer);
    assert_eq!(rt; answer, Err(RunFault::Read));
    assert_eq!(rt; reader.calls, u64::from(READ_LIMIT));
    assert_eq!(rt; writer.bytes(), BEGUN.as_bytes());
}

#[test]
fn a_letter_without_end_is_read_up_to_the_limit(rt: HostRuntime) {
    expect_read_up_to_the_limit(&rt, b"kkk");
}

#[test]
fn an_arrow_that_never_comes_is_read_up_to_the_limit(rt: HostRuntime) {
    expect_read_up_to_the_limit(&rt, b"\x1b[k");
}
