//! What a view knows of the game that it shows.

ghost use Rattle.std.specs.Prelude.{◌≡◌, ◌≢◌, false, true, Err, IfErr, IfOk};
ghost use Rattle.ps_command.specs.ViewedGames.{IsToldOf, heard_by};
ghost use Rattle.ps_command.specs.declared.stops.Stop.TheVariants as Stop;

use crate::stops::Stop;
use ps_describe::{Options, facts_of};
use ps_devices::RunFault;
use ps_view::{HeardKeys, ViewedGame};
use std::alloc::Global;

/// What a view knows where no game is known.
fn unknown_game(alloc: Global) -> ViewedGame {
    ViewedGame {
        players: Vec::new(alloc),
        heard: HeardKeys {
            acts: true,
            undoes: true,
            restarts: true,
        },
    }
}

/// The keys that a game with these options heeds.
fn heard_keys(options: Options) -> HeardKeys
    ensures { result ≡ heard_by options }
{
    HeardKeys {
        acts: !options.no_action,
        undoes: !options.no_undo,
        restarts: !options.no_restart,
    }
}

/// What a view knows of the game of a text. Of a text with a fault it doesn't matter: no run of it writes anything.
pub fn viewed_game(alloc: Global, text: &[u8]) -> Result<ViewedGame, Stop>
    ensures told { IfOk result (λ told. IsToldOf text.now told.players.items told.heard) }
    ensures fault { IfErr result (λ stop. stop ≢ Stop.NotAccepted) }
    ensures memory { IfErr result (λ stop. stop ≡ Stop.Run RunFault.Memory) }
{
    let Some(facts) = facts_of(alloc, text)? else {
        return Ok(unknown_game(alloc));
    };
    Ok(ViewedGame {
        heard: heard_keys(facts.options),
        players: facts.players,
    })
}

/// What came of something that was drawn in a view, of which it is said afterwards whether it lacked memory.
pub fn drawn(outcome: Result<(), Stop>, wants_memory: bool) -> Result<(), Stop>
    ensures short { wants_memory ≡ true → result ≡ Err (Stop.Run RunFault.Memory) }
    ensures same { wants_memory ≡ false → result ≡ outcome }
{
    if wants_memory {
        return Err(Stop::Run(RunFault::Memory));
    }
    outcome
}
