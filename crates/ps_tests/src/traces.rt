//! A game that is played and traced, on devices in memory.

use crate::games::{PUSHED, PUSHING};
use crate::watched::Watched;
use ps_devices::{MemoryReader, MemoryWriter};
use ps_run::GamePlayer;
use ps_trace::{Start, TracedPlay};
use std::process::Abort;

/// What a trace says of [`PUSHING`] with the key `d`.
const TOLD: &str = "> right\n  | 2,1       Player goes right\n\
    \x20 | line 30   [ > Player | Crate ] -> [ > Player | > Crate ]   (right)\n  |   3,1: Crate goes right\n\
    \x20 | 2,1       Player moves to 3,1\n  | 3,1       Crate moves to 4,1\n  | = won (the win conditions hold)\n";

/// Whether [`PUSHING`] is played with the keys `ddd` as without a trace, and its trace has these bytes. The first key
/// ends it, and no other is read. The opening and what that key shows are written by a call each. There is room for
/// `room` bytes of lines.
fn is_traced(rt: &(impl Abort + AllocGlobal), room: usize, told: &[u8]) -> bool {
    let mut reader = Watched::new(MemoryReader::new(b"ddd", 64, None));
    let screen = MemoryWriter::new(rt.alloc(), 1000, 1000);
    let mut screen = Watched::new(screen.expect(rt, "memory for the screen"));
    let mut lines = MemoryWriter::new(rt.alloc(), room, 1000).expect(rt, "memory for the lines");
    let play = TracedPlay {
        alloc: rt.alloc(),
        player: &GamePlayer,
        start: Start {
            text: PUSHING,
            level: None,
        },
    };
    let ended = play.play(&mut reader, &mut screen, &mut lines).is_ok();
    assert_eq!(rt; reader.calls, 1);
    assert_eq!(rt; screen.calls, 2);
    ended && screen.device.bytes() == PUSHED.as_bytes() && lines.bytes() == told
}

#[test]
fn a_trace_tells_of_a_key(rt: HostRuntime) {
    assert!(rt; is_traced(&rt, 1000, TOLD.as_bytes()));
}

#[test]
fn a_game_goes_on_where_its_lines_cannot_be_written(rt: HostRuntime) {
    assert!(rt; is_traced(&rt, 0, b""));
}
