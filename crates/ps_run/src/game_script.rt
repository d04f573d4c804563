//! What a game is played by.

ghost use Rattle.std.specs.Prelude.{◌≡◌};
ghost use Rattle.ps_program.specs.ProgramShown.{sections_shown};

use ps_compile::CompiledPrograms;
use ps_program::CompiledSection;
use ps_session::SessionGame;

/// All that a game is played by, lent: the game without its rules, and the sections of its compiled rules, those of a
/// turn and those of its late part.
#[derive(Drop)]
pub struct GameScript<'g> {
    pub game: SessionGame<'g>,
    pub plain: &'g [CompiledSection],
    pub late: &'g [CompiledSection],
}

impl<'g> GameScript<'g> {
    /// A game with these programs.
    pub fn new(game: SessionGame<'g>, programs: &'g CompiledPrograms) -> GameScript<'g>
        ensures game { result.game ≡ game.entry }
        ensures plain { sections_shown result.plain.now ≡ programs.entry.now.plain }
        ensures late { sections_shown result.late.now ≡ programs.entry.now.late }
    {
        GameScript {
            game,
            plain: programs.plain.sections(),
            late: programs.late.sections(),
        }
    }

    /// The same, lent once more.
    pub fn copied(&self) -> GameScript<'g>
        ensures { result ≡ self.now }
    {
        GameScript {
            game: self.game.copied(),
            plain: self.plain,
            late: self.late,
        }
    }
}
