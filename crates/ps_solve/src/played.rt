//! Keys that are played before a search.

ghost use Rattle.std.specs.Prelude.{◌≡◌, IfOk, OnOk};
ghost use Rattle.ps_laws.specs.Fronts.{session_after};
ghost use Rattle.ps_model.specs.game.Outputs.{opening_step};
ghost use Rattle.ps_run.specs.GameScripts.{script_shown};
ghost use Rattle.ps_run.specs.GamesInPlay.{script_in};

use ps_model::{Key, Memory};
use ps_run::{GamePlay, GameScript};
use ps_screen::OutputText;
use std::alloc::Global;

/// Plays keys in a game in play. What they write is thrown away.
fn play_on(play: &mut GamePlay<'_>, keys: &[Key], output: &mut OutputText) -> Result<(), Memory>
    ensures script { script_in play.new ≡ script_in play.old }
    ensures session { OnOk result
        (play.new.session ≡ session_after (script_in play.old) play.old.session keys.now) }
{
    for key in keys {
        output.clear();
        play.key(*key, output)?;
    }
    Ok(())
}

/// A game in play after keys from where it begins.
///
/// # Errors
///
/// `Memory`.
pub(crate) fn play_keys<'g>(
    alloc: Global,
    script: GameScript<'g>,
    keys: &[Key],
) -> Result<GamePlay<'g>, Memory>
    ensures script { IfOk result (λ play. script_in play ≡ script_shown script.entry) }
    ensures session { IfOk result (λ play.
        play.session ≡ session_after (script_in play) (opening_step (script_in play)).session keys.now) }
{
    let mut output = OutputText::new(alloc);
    let mut play = GamePlay::start(alloc, script, &mut output)?;
    if let Err(Memory) = play_on(&mut play, keys, &mut output) {
        play.end();
        return Err(Memory);
    }
    Ok(play)
}
