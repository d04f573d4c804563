//! Games that nothing wins.

ghost use Rattle.std.specs.Prelude.{◌≡◌, ◌++◌, OnOk};
ghost use Rattle.std.specs.List.{list_any};
ghost use Rattle.ps_levels.specs.WinsShown.{wins_shown};
ghost use Rattle.ps_warnings.specs.UnwonWarnings.{has_win, is_bare, nothing_wins, rules_of, unwon_warnings};
ghost use Rattle.ps_warnings.specs.UnwonWarnings.{warned_of_unwon};

use crate::kinds::{Warning, WarningKind};
use ps_game::Game;
use ps_levels::Win;
use ps_model::Memory;
use ps_rules::{RuleLine, RuleText};

/// Whether there is no rule.
fn are_no_rules(rules: &RuleText) -> bool
    ensures { result ≡ is_bare (rules_of rules.now) }
{
    for line in rules.lines() {
        let RuleLine::Rule(_) = line else {
            continue;
        };
        return false;
    }
    true
}

/// Whether a rule has the command `win`.
fn has_win(rules: &RuleText) -> bool
    ensures { result ≡ list_any has_win (rules_of rules.now) }
{
    for line in rules.lines() {
        let RuleLine::Rule(rule) = line else {
            continue;
        };
        if rule.commands.win {
            return true;
        }
    }
    false
}

/// Whether there is no win condition.
fn are_no_wins(wins: &[Win]) -> bool
    ensures { result ≡ is_bare (wins_shown wins.now) }
{
    wins.is_empty()
}

/// Whether nothing wins a level of these rules and win conditions, and there are rules.
fn nothing_wins(rules: &RuleText, wins: &[Win]) -> bool
    ensures { result ≡ nothing_wins (rules_of rules.now) (wins_shown wins.now) }
{
    are_no_wins(wins) && !are_no_rules(rules) && !has_win(rules)
}

/// Warns of a game at a line, if nothing wins it.
fn warn_if(told: &mut Vec<Warning>, unwon: bool, line: u32) -> Result<(), Memory>
    ensures { OnOk result (told.new.items ≡ told.old.items ++ warned_of_unwon unwon line) }
{
    if unwon {
        told.push(Warning {
            line,
            kind: WarningKind::NothingWins,
        })?;
    }
    Ok(())
}

/// Warns of a game that nothing wins, of which the header LEVELS has that number.
pub fn warn_of_unwon(game: &Game, header: u32, told: &mut Vec<Warning>) -> Result<(), Memory>
    ensures { OnOk result (told.new.items ≡ told.old.items ++ unwon_warnings game.now header) }
{
    warn_if(told, nothing_wins(&game.rules, &game.wins), header)
}
