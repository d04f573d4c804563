//! What stands above a line of RULES.

ghost use Rattle.std.specs.Prelude.{◌≡◌, ◌<◌, Some, suc, None};
ghost use Rattle.ps_model.specs.rules.RuleFaults.{nothing_above, has_lone_plus, joins_other_part, is_other_part};
ghost use Rattle.ps_rules.specs.AboveShown.{above_shown, below_rule, below_start, below_end};
ghost use Rattle.ps_rules.specs.RulesShown.{rule_shown};

use crate::tree::SourceRule;

/// What stands above a line of RULES.
#[derive(Clone, Copy)]
pub struct Above {
    /// How many rules.
    pub rules: u32,
    /// The last rule, if no loop line is below it: whether it is late.
    pub last: Option<bool>,
    /// The loop that is open, by the line of its `startloop`.
    pub start: Option<u32>,
}

/// Whether the last rule is late and this one isn't, or the other way round.
fn is_other_part(last: Option<bool>, late: bool) -> bool
    ensures { result ≡ is_other_part last late }
{
    match last {
        None => false,
        Some(last) => last != late,
    }
}

impl Above {
    /// Above the first line stands nothing.
    pub fn nothing() -> Above
        ensures { above_shown result ≡ nothing_above }
    {
        Above {
            rules: 0,
            last: None,
            start: None,
        }
    }

    /// What stands above the line below a rule. There are no more rules than a text may have lines.
    pub fn with_rule(self, late: bool) -> Above
        requires { self.rules < 4294967295 }
        ensures { above_shown result ≡ below_rule (above_shown self) late }
    {
        Above {
            rules: self.rules + 1,
            last: Some(late),
            start: self.start,
        }
    }

    /// What stands above the line below a `startloop`, which stands on the line of that number.
    pub fn with_start(self, line: u32) -> Above
        ensures { above_shown result ≡ below_start (above_shown self) line }
    {
        Above {
            rules: self.rules,
            last: None,
            start: Some(line),
        }
    }

    /// What stands above the line below an `endloop`.
    pub fn with_end(self) -> Above
        ensures { above_shown result ≡ below_end (above_shown self) }
    {
        Above {
            rules: self.rules,
            last: None,
            start: None,
        }
    }

    /// Whether the rule has a `+` without a rule to join.
    pub fn has_lone_plus(self, rule: &SourceRule) -> bool
        ensures { result ≡ has_lone_plus (above_shown self) (rule_shown rule.now) }
    {
        rule.joined && self.last.is_none()
    }

    /// Whether a `+` joins a late and a plain rule.
    pub fn joins_other_part(self, rule: &SourceRule) -> bool
        ensures { result ≡ joins_other_part (above_shown self) (rule_shown rule.now) }
    {
        rule.joined && is_other_part(self.last, rule.late)
    }
}
