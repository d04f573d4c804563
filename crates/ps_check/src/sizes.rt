//! How large a game is.

ghost use Rattle.std.specs.Prelude.{◌≡◌, Some, filter, length};
ghost use Rattle.std.specs.List.{filter_map};
ghost use Rattle.ps_model.specs.board.RulePrograms.{rule_in};
ghost use Rattle.ps_model.specs.names.Names.{object_count};
ghost use Rattle.ps_model.specs.session.Sessions.{is_level};
ghost use Rattle.ps_levels.specs.EntriesShown.{entries_shown};
ghost use Rattle.ps_rules.specs.RulesShown.{lines_shown};
ghost use Rattle.ps_check.specs.Checks.{level_count, rule_count, size_words};

use ps_game::Game;
use ps_levels::Entry;
use ps_rules::RuleLine;
use std::fmt;

/// How large a game is.
#[derive(Clone, Copy)]
pub struct Size {
    pub objects: u32,
    pub layers: u32,
    /// Rules as they are written; starts and ends of loops aren't counted.
    pub rules: usize,
    /// Messages aren't counted.
    pub levels: usize,
}

/// As `ok: objects 9, layers 4, rules 1, levels 1`.
impl fmt::Display for Size {
    ghost output = { λ size. Some (size_words size.objects size.layers size.rules size.levels) };

    fn fmt<W: fmt::Write>(&self, f: &mut fmt::Formatter<W>) -> fmt::Result {
        write!(
            f,
            "ok: objects {}, layers {}, rules {}, levels {}",
            self.objects, self.layers, self.rules, self.levels
        )
    }
}

/// How many of the lines are rules.
fn rules_among(lines: &[RuleLine]) -> usize
    ensures { result ≡ length (filter_map rule_in (lines_shown lines.now)) }
{
    let mut count = 0;
    for line in lines {
        let RuleLine::Rule(_) = line else {
            continue;
        };
        count += 1;
    }
    count
}

/// How many of the entries are levels.
fn levels_among(entries: &[Entry]) -> usize
    ensures { result ≡ length (filter is_level (entries_shown entries.now)) }
{
    let mut count = 0;
    for entry in entries {
        let Entry::Level(_) = entry else {
            continue;
        };
        count += 1;
    }
    count
}

/// How large a game is.
pub fn size_of(game: &Game) -> Size
    ensures objects { result.objects ≡ object_count game.now.names }
    ensures layers { result.layers ≡ game.now.names.layer_count }
    ensures rules { result.rules ≡ rule_count game.now }
    ensures levels { result.levels ≡ level_count game.now }
{
    Size {
        objects: game.names.object_count(),
        layers: game.names.layer_count(),
        rules: rules_among(game.rules.lines()),
        levels: levels_among(&game.entries),
    }
}
