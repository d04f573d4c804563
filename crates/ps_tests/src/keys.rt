//! Keys read a piece of bytes at a time, which a player doesn't do: how many bytes are read, and what is held.

use ps_keys::{Fed, Held, Input, Key, Keys};
use std::test::Fail;

#[test]
fn an_arrow_is_held_between_pieces(rt: HostRuntime) -> Result<(), Fail> {
    let mut keys = Keys::new();
    let first = keys.feed(b"\x1b");
    assert_eq!(rt; first, Fed { key: None, read: 1 });
    let second = keys.feed(b"[");
    assert_eq!(rt; second, Fed { key: None, read: 1 });
    assert_eq!(rt; keys.held(), Held::Bracket);
    let key = Some(Key::Move(Input::Left));
    let third = keys.feed(b"Dzz");
    assert_eq!(rt; third, Fed { key, read: 1 });
    assert_eq!(rt; keys.held(), Held::Nothing);
    Ok(())
}

#[test]
fn what_ends_no_arrow_is_read_by_itself(rt: HostRuntime) -> Result<(), Fail> {
    let mut keys = Keys::new();
    let fed = keys.feed(b"\x1b\x1b[q");
    assert_eq!(rt;
        fed,
        Fed {
            key: Some(Key::Quit),
            read: 4
        }
    );
    let fed = keys.feed(b" \x1b[?w");
    assert_eq!(rt;
        fed,
        Fed {
            key: Some(Key::Move(Input::Up)),
            read: 5
        }
    );
    Ok(())
}
