//! The rules of a game's turns.

ghost use Rattle.std.specs.Prelude.{◌≡◌, IfOk};

use crate::game_rules::GameRules;
use ps_engine::Scan;
use ps_model::Memory;
use ps_program::CompiledSection;
use ps_turn::TurnRules;
use std::alloc::Global;

/// The rules of the turns of a game: the sections of its compiled programs, lent, each for its own part of a turn. If
/// they are compiled of the names and the rules of the game of a text, then that game, played by them, has the runs of
/// the game as it is written ([`games_play_as_written`](crate::games_play_as_written)).
///
/// What a turn's message needs of memory comes from `alloc`. `Memory` if there is no room for what runs of the programs
/// need besides a board.
pub fn rules_of_sections<'p, B: Scan>(
    alloc: Global,
    plain: &'p [CompiledSection],
    late: &'p [CompiledSection],
) -> Result<TurnRules<GameRules<'p, B>>, Memory>
    ensures plain { IfOk result (λ rules. rules.plain ≡ plain.entry.now) }
    ensures late { IfOk result (λ rules. rules.late ≡ late.entry.now) }
{
    Ok(TurnRules {
        plain: GameRules::try_new(alloc, plain)?,
        late: GameRules::try_new(alloc, late)?,
    })
}
