//! The keys that are ignored.

ghost use Rattle.std.specs.Prelude.{◌≡◌};
ghost use Rattle.ps_model.specs.session.IgnoredKeys.{is_ignored_at_message, is_ignored_in_level};
ghost use Rattle.ps_session.specs.IgnoredKeys.{IgnoredKeysDoNothing};

use ps_model::{Input, Key, Options};

/// Whether a level ignores a key: options have `x`, `z` and `r` ignored.
pub fn is_ignored_in_level(options: Options, key: Key) -> bool
    ensures { result ≡ is_ignored_in_level options key }
{
    match key {
        Key::Move(Input::Action) => options.no_action,
        Key::Undo => options.no_undo,
        Key::Restart => options.no_restart,
        _ => false,
    }
}

/// Whether a key is ignored while a message waits: every one is, but `x` and `q`.
pub fn is_ignored_at_message(key: Key) -> bool
    ensures { result ≡ is_ignored_at_message key }
{
    match key {
        Key::Move(Input::Action) => false,
        Key::Quit => false,
        _ => true,
    }
}

/// A key that is ignored leaves the session as it is, and writes nothing.
pub fn ignored_keys_do_nothing()
    ensures { IgnoredKeysDoNothing }
{}
