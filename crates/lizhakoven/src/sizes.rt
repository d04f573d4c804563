//! What C learns of the size of a game.

ghost use Rattle.std.specs.Prelude.{◌≡◌};
ghost use Rattle.lizhakoven.specs.ToldSizes.{no_size, told_size};

use ps_check::size_of;
use ps_game::Game;

/// How large a game is.
#[repr(C)]
#[derive(Clone, Copy)]
pub struct GameSize {
    pub objects: u32,
    pub layers: u32,
    /// Rules as they are written; starts and ends of loops aren't counted.
    pub rules: usize,
    /// Messages aren't counted.
    pub levels: usize,
}

impl GameSize {
    /// The size of no game.
    pub fn none() -> GameSize
        ensures { result ≡ no_size }
    {
        GameSize {
            objects: 0,
            layers: 0,
            rules: 0,
            levels: 0,
        }
    }

    /// The size of a game.
    pub fn of(game: &Game) -> GameSize
        ensures { result ≡ told_size game.now }
    {
        let size = size_of(game);
        GameSize {
            objects: size.objects,
            layers: size.layers,
            rules: size.rules,
            levels: size.levels,
        }
    }
}
