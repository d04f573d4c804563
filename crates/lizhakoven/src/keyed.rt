//! A game in play after the keys of bytes.

ghost use Rattle.std.specs.Prelude.{◌≡◌, ◌++◌, ◌∷◌, [], ℕ, Bool, IfOk, List, OnOk, drop};
ghost use Rattle.ps_laws.specs.Fronts.{session_of, whole_front};
ghost use Rattle.ps_run.specs.GameScripts.{script_shown};
ghost use Rattle.ps_run.specs.GamesInPlay.{script_in};
ghost use Rattle.lizhakoven.specs.PlayedKeys.{AreLedTo, AreLedToIf, CanGoOn, CanPlay, CanPlayByte, HasPlayed};
ghost use Rattle.lizhakoven.specs.PlayedKeys.{HasWritten, IsOfKeys, IsOfKeysIf};

use crate::played_keys::PlayedKeys;
use ps_keys::Keys;
use ps_model::Memory;
use ps_run::{GamePlay, GameScript};
use ps_screen::OutputText;
use std::alloc::Global;

/// Plays the key of a byte, if it brings one after what is held, and adds what the key writes to the output.
///
/// # Errors
///
/// `Memory`, and a part of the text may have been added.
fn play_byte(
    play: &mut GamePlay<'_>,
    keys: &mut Keys,
    byte: u8,
    output: &mut OutputText,
) -> Result<(), Memory>
    ensures script { script_in play.new ≡ script_in play.old }
    ensures played { OnOk result ((is_whole : Bool) (read : List ℕ) → CanPlayByte is_whole byte
        → HasPlayed is_whole (script_in play.old) play.old.session keys.old read
        → HasPlayed is_whole (script_in play.old) play.new.session keys.new (read ++ byte ∷ [])) }
    ensures wrote { OnOk result ((read : List ℕ)
        → HasWritten (script_in play.old) play.old.session keys.old read output.old
        → HasWritten (script_in play.old) play.new.session keys.new (read ++ byte ∷ []) output.new) }
{
    match keys.next(byte) {
        None => Ok(()),
        Some(key) => play.key(key, output),
    }
}

/// Plays the keys of bytes. What they write is thrown away.
///
/// # Errors
///
/// `Memory`.
fn play_bytes(
    play: &mut GamePlay<'_>,
    keys: &mut Keys,
    bytes: &[u8],
    output: &mut OutputText,
) -> Result<(), Memory>
    ensures script { script_in play.new ≡ script_in play.old }
    ensures played { OnOk result ((is_whole : Bool) (read : List ℕ) → CanPlay is_whole bytes.now
        → HasPlayed is_whole (script_in play.old) play.old.session keys.old read
        → HasPlayed is_whole (script_in play.old) play.new.session keys.new (read ++ bytes.now)) }
{
    for byte in bytes {
        output.clear();
        play_byte(play, keys, *byte, output)?;
    }
    Ok(())
}

/// Plays the keys of bytes, and adds what they write to the output.
///
/// # Errors
///
/// `Memory`, and some of it may have been added.
fn write_texts(play: &mut GamePlay<'_>, bytes: &[u8], output: &mut OutputText) -> Result<(), Memory>
    ensures { OnOk result (play.old.session ≡ session_of (script_in play.old) []
        → output.old ≡ whole_front (script_in play.old) []
        → output.new ≡ whole_front (script_in play.old) bytes.now) }
{
    let mut keys = Keys::new();
    for byte in bytes {
        play_byte(play, &mut keys, *byte, output)?;
    }
    Ok(())
}

/// A game in play, and what is held of an arrow. It has all boards that undo goes back to, or may lack some. The play
/// is to be ended.
pub struct Going<'g> {
    pub play: GamePlay<'g>,
    pub keys: Keys,
    pub is_whole: bool,
}

/// A game in play goes on by the keys of bytes. What they write is thrown away.
///
/// # Errors
///
/// `Memory`.
fn play_on<'g>(
    play: GamePlay<'g>,
    keys: Keys,
    is_whole: bool,
    bytes: &[u8],
    output: &mut OutputText,
) -> Result<Going<'g>, Memory>
    ensures script { IfOk result (λ going. script_in going.play ≡ script_in play.entry) }
    ensures whole { IfOk result (λ going. going.is_whole ≡ is_whole) }
    ensures played { IfOk result (λ going. (read : List ℕ) → CanPlay is_whole bytes.now
        → HasPlayed is_whole (script_in play.entry) play.entry.session keys read
        → HasPlayed is_whole (script_in play.entry) going.play.session going.keys (read ++ bytes.now)) }
{
    let (mut play, mut keys) = (play, keys);
    if let Err(Memory) = play_bytes(&mut play, &mut keys, bytes, output) {
        play.end();
        return Err(Memory);
    }
    Ok(Going {
        play,
        keys,
        is_whole,
    })
}

/// A game in play after the keys of bytes from where it begins.
///
/// # Errors
///
/// `Memory`.
fn play_all<'g>(alloc: Global, script: GameScript<'g>, bytes: &[u8]) -> Result<Going<'g>, Memory>
    ensures script { IfOk result (λ going. script_in going.play ≡ script_shown script.entry) }
    ensures played { IfOk result (λ going.
        HasPlayed going.is_whole (script_shown script.entry) going.play.session going.keys bytes.now) }
{
    let mut output = OutputText::new(alloc);
    let play = GamePlay::start(alloc, script, &mut output)?;
    let going = play_on(play, Keys::new(), true, bytes, &mut output)?;
    Ok(going)
}

/// A game in play after the keys of bytes, of which what is kept has played the first.
///
/// # Errors
///
/// `Memory`.
fn play_others<'g>(
    alloc: Global,
    script: GameScript<'g>,
    bytes: &[u8],
    before: PlayedKeys,
) -> Result<Going<'g>, Memory>
    requires of_keys { IsOfKeys script.game.names bytes.now before }
    requires goes_on { CanPlay before.is_whole (drop before.count bytes.now) }
    ensures script { IfOk result (λ going. script_in going.play ≡ script_shown script.entry) }
    ensures played { AreLedTo (script_shown script.entry) bytes.now before → IfOk result (λ going.
        HasPlayed going.is_whole (script_shown script.entry) going.play.session going.keys bytes.now) }
{
    let PlayedKeys {
        rested,
        keys,
        count,
        is_whole,
    } = before;
    let (_, more) = bytes.split_at(count);
    let mut output = OutputText::new(alloc);
    let play = GamePlay::resume(alloc, script, rested)?;
    let going = play_on(play, keys, is_whole, more, &mut output)?;
    Ok(going)
}

/// A game in play after the keys of bytes from where it begins. Where something is kept of the first of them, only the
/// others are played.
///
/// # Errors
///
/// `Memory`.
pub fn play_keys<'g>(
    alloc: Global,
    script: GameScript<'g>,
    bytes: &[u8],
    before: Option<PlayedKeys>,
) -> Result<Going<'g>, Memory>
    requires of_keys { IsOfKeysIf script.game.names bytes.now before }
    requires goes_on { CanGoOn bytes.now before }
    ensures script { IfOk result (λ going. script_in going.play ≡ script_shown script.entry) }
    ensures played { AreLedToIf (script_shown script.entry) bytes.now before → IfOk result (λ going.
        HasPlayed going.is_whole (script_shown script.entry) going.play.session going.keys bytes.now) }
{
    match before {
        None => play_all(alloc, script, bytes),
        Some(before) => play_others(alloc, script, bytes, before),
    }
}

/// What a game writes: its opening, and the texts of the keys of bytes.
///
/// # Errors
///
/// `Memory`.
pub fn text_of_keys<'g>(
    alloc: Global,
    script: GameScript<'g>,
    bytes: &[u8],
) -> Result<OutputText, Memory>
    ensures { IfOk result (λ text. text ≡ whole_front (script_shown script.entry) bytes.now) }
{
    let mut output = OutputText::new(alloc);
    let mut play = GamePlay::start(alloc, script, &mut output)?;
    if let Err(Memory) = write_texts(&mut play, bytes, &mut output) {
        play.end();
        return Err(Memory);
    }
    play.end();
    Ok(output)
}
