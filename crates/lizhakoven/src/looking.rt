//! Where keys lead in a game.

ghost use Rattle.std.specs.Prelude.{◌≡◌, IfOk, OnErr};
ghost use Rattle.ps_laws.specs.Fronts.{session_of};
ghost use Rattle.ps_run.specs.GameScripts.{script_shown};
ghost use Rattle.lizhakoven.specs.PlayedKeys.{AreLedToIf, IsOfKeysIf};
ghost use Rattle.lizhakoven.specs.Places.{IsSeen};

use crate::keyed::{Going, play_keys};
use crate::played_keys::{PlayedKeys, usable};
use crate::seeing::{Seen, see};
use ps_model::Memory;
use ps_run::GameScript;
use std::alloc::Global;

/// Plays the keys of bytes in a game from where it begins, but for those that are played already. Where they lead is
/// told, with the cells at the front of `cells`, and it is kept.
///
/// # Errors
///
/// `Memory`: the cells are as before, and nothing may be kept.
pub fn look_along(
    alloc: Global,
    script: GameScript<'_>,
    keys: &[u8],
    played: &mut Option<PlayedKeys>,
    cells: &mut [u32],
) -> Result<Seen, Memory>
    requires { IsOfKeysIf script.game.names keys.now played.old }
    ensures of_keys { IsOfKeysIf script.entry.game.names keys.now played.new }
    ensures led_to { AreLedToIf (script_shown script.entry) keys.now played.old
        → AreLedToIf (script_shown script.entry) keys.now played.new }
    ensures seen { AreLedToIf (script_shown script.entry) keys.now played.old → IfOk result (λ seen.
        IsSeen script.entry.game.entries (session_of (script_shown script.entry) keys.now) cells.old cells.new seen) }
    ensures kept { OnErr result (cells.new ≡ cells.old) }
{
    let entries = script.game.entries();
    let before = usable(played.take(), keys);
    let going = play_keys(alloc, script, keys, before)?;
    let Going {
        play,
        keys: held,
        is_whole,
    } = going;
    let seen = see(alloc, entries, &play, cells);
    *played = Some(PlayedKeys::of(play, held, keys.len(), is_whole));
    seen
}
