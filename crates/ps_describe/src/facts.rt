//! What a view knows of a game.

ghost use Rattle.std.specs.Prelude.{◌≡◌, IfOk, IfSome, is_some};
ghost use Rattle.ps_model.specs.game.Games.{game};
ghost use Rattle.ps_describe.specs.Descriptions.{HasFacts};

use crate::players::player_characters;
use ps_game::read_game;
use ps_model::{Memory, Options, Refusal};
use std::alloc::Global;

/// What a view knows of a game.
#[derive(Drop)]
pub struct GameFacts {
    /// The characters of the glyphs that show an object of Player, alone or with others.
    pub players: Vec<char>,
    pub options: Options,
}

/// What a view knows of the game of a text; nothing where the text has a fault.
///
/// # Errors
///
/// `Memory`.
pub fn facts_of(alloc: Global, text: &[u8]) -> Result<Option<GameFacts>, Memory>
    ensures told { IfOk result (λ told. IfSome told (λ facts.
        HasFacts text.now facts.players.items facts.options)) }
    ensures is { IfOk result (λ told. is_some told ≡ is_some (game text.now)) }
{
    match read_game(alloc, text) {
        Ok(game) => {
            let players = player_characters(alloc, &game.names)?;
            let options = game.options;
            Ok(Some(GameFacts { players, options }))
        }
        Err(Refusal::Refused(_)) => Ok(None),
        Err(Refusal::Memory) => Err(Memory),
    }
}
