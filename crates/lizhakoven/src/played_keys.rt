//! What keys have led to, between the calls.

ghost use Rattle.std.specs.Prelude.{◌≡◌, ◌≤◌, ℕ, IfOk, IfSome, List, false, length};
ghost use Rattle.ps_model.specs.board.Turns.{Script};
ghost use Rattle.ps_model.specs.names.Names.{Names};
ghost use Rattle.ps_run.specs.SizedPlays.{rested_in};
ghost use Rattle.lizhakoven.specs.PlayedKeys.{AreLedTo, AreLedToIf, CanGoOn, HasPlayed, IsOfKeys, IsOfKeysIf};
ghost use Rattle.lizhakoven.specs.PlayedKeys.{TakesNothingBack};

use crate::compiled_game::CompiledGame;
use ps_keys::Keys;
use ps_model::{Held, Memory};
use ps_run::{GamePlay, RestedPlay};
use ps_stage::SessionGame;
use std::alloc::Global;

/// The byte that begins an arrow.
const ESCAPE: u8 = 27;

/// The byte that goes on with an arrow.
const BRACKET: u8 = 91;

/// The key that takes back.
const UNDO: u8 = 122;

/// What the first keys of a session have led to: the game at rest, what is held of an arrow, and the count of the bytes
/// of these keys. A copy lacks the boards that undo goes back to, and so does what goes on from it.
#[derive(Drop)]
pub struct PlayedKeys {
    pub rested: RestedPlay,
    pub keys: Keys,
    pub count: usize,
    pub is_whole: bool,
}

/// Whether one of these bytes is the key that takes back.
fn takes_back(bytes: &[u8]) -> bool
    ensures { result ≡ false → TakesNothingBack bytes.now }
{
    for byte in bytes {
        if *byte == UNDO {
            return true;
        }
    }
    false
}

/// What is kept of the first of these bytes, unless one of the others takes back what it lacks.
pub fn usable(played: Option<PlayedKeys>, bytes: &[u8]) -> Option<PlayedKeys>
    requires { IfSome played (λ before. before.count ≤ length bytes.now) }
    ensures of_keys { (names : Names) → IsOfKeysIf names bytes.now played → IsOfKeysIf names bytes.now result }
    ensures led_to { (script : Script) → AreLedToIf script bytes.now played → AreLedToIf script bytes.now result }
    ensures goes_on { CanGoOn bytes.now result }
{
    let Some(before) = played else {
        return None;
    };
    if before.is_whole {
        return Some(before);
    }
    let (_, more) = bytes.split_at(before.count);
    if takes_back(more) {
        return None;
    }
    Some(before)
}

/// A reader of keys that holds the same.
fn keys_again(keys: &Keys) -> Keys
    ensures { result ≡ keys.now }
{
    let mut again = Keys::new();
    match keys.held() {
        Held::Nothing => again,
        Held::Escape => {
            let _ = again.next(ESCAPE);
            again
        }
        Held::Bracket => {
            let _ = again.next(ESCAPE);
            let _ = again.next(BRACKET);
            again
        }
    }
}

impl PlayedKeys {
    /// What is kept of a game in play that has played the keys of `count` bytes.
    pub fn of(play: GamePlay<'_>, keys: Keys, count: usize, is_whole: bool) -> PlayedKeys
        ensures of_keys { (bytes : List ℕ) → length bytes ≡ count → IsOfKeys play.entry.game.names bytes result }
        ensures led_to { (script : Script) (bytes : List ℕ) → length bytes ≡ count
            → HasPlayed is_whole script play.entry.session keys bytes → AreLedTo script bytes result }
    {
        let rested = play.rest();
        if is_whole {
            return PlayedKeys {
                rested,
                keys,
                count,
                is_whole,
            };
        }
        PlayedKeys {
            rested: rested.without_history(),
            keys,
            count,
            is_whole,
        }
    }

    /// A copy without the boards that undo goes back to, in a game of the same names.
    ///
    /// # Errors
    ///
    /// `Memory`.
    fn copied(&mut self, alloc: Global, parts: SessionGame<'_>) -> Result<PlayedKeys, Memory>
        requires { parts.names ≡ (rested_in self.old.rested).names }
        ensures of_keys { (names : Names) (bytes : List ℕ) → IsOfKeys names bytes self.old
            → IsOfKeys names bytes self.new }
        ensures led_to { (script : Script) (bytes : List ℕ) → AreLedTo script bytes self.old
            → AreLedTo script bytes self.new }
        ensures copy_of_keys { IfOk result (λ copy. (names : Names) (bytes : List ℕ) → IsOfKeys names bytes self.old
            → IsOfKeys names bytes copy) }
        ensures copy_led_to { IfOk result (λ copy. (script : Script) (bytes : List ℕ) → AreLedTo script bytes self.old
            → AreLedTo script bytes copy) }
    {
        let rested = self.rested.copied(alloc, parts)?;
        Ok(PlayedKeys {
            rested,
            keys: keys_again(&self.keys),
            count: self.count,
            is_whole: false,
        })
    }
}

/// A copy of what is kept of the first keys of a session in a game, if something is: without the boards that undo goes
/// back to.
///
/// # Errors
///
/// `Memory`.
pub fn copied_if(
    alloc: Global,
    game: &CompiledGame,
    entry: usize,
    played: &mut Option<PlayedKeys>,
) -> Result<Option<PlayedKeys>, Memory>
    requires named { IfSome played.old (λ own. (rested_in own.rested).names ≡ game.now.names) }
    ensures of_keys { (names : Names) (bytes : List ℕ) → IsOfKeysIf names bytes played.old
        → IsOfKeysIf names bytes played.new }
    ensures led_to { (script : Script) (bytes : List ℕ) → AreLedToIf script bytes played.old
        → AreLedToIf script bytes played.new }
    ensures copy_of_keys { IfOk result (λ copy. (names : Names) (bytes : List ℕ)
        → IsOfKeysIf names bytes played.old → IsOfKeysIf names bytes copy) }
    ensures copy_led_to { IfOk result (λ copy. (script : Script) (bytes : List ℕ)
        → AreLedToIf script bytes played.old → AreLedToIf script bytes copy) }
{
    let Some(own) = played else {
        return Ok(None);
    };
    let script = game.script_at(entry);
    let copy = own.copied(alloc, script.game)?;
    Ok(Some(copy))
}
