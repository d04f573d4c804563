//! Levels of the legend lines. They tell at once that a line doesn't stand for itself.

ghost use Rattle.std.specs.Prelude.{◌≡◌, ◌≤◌, true, false, IfOk, length};
ghost use Rattle.ps_names.specs.Known.{mention_shown, mentions_shown};
ghost use Rattle.ps_names.specs.LegendNames.{legend_shown};
ghost use Rattle.ps_names.specs.Levels.{level, is_below, are_below, Fall};

use crate::legend_names::LegendName;
use crate::mention::Mention;

/// The level of the line of a place.
pub fn level_at(levels: &[u32], place: usize) -> u32
    ensures { result ≡ level levels.now place }
{
    if place >= levels.len() {
        return 0;
    }
    levels[place]
}

/// Whether the line that is mentioned is of a level below the limit; an object is below each.
fn is_below(levels: &[u32], limit: u64, mention: Mention) -> bool
    ensures { result ≡ is_below levels.now limit (mention_shown mention) }
{
    match mention {
        Mention::Object(_) => true,
        Mention::Line(place) => (level_at(levels, place as usize) as u64) < limit,
    }
}

/// Whether the lines that are mentioned are of levels below the limit.
pub fn are_below(levels: &[u32], limit: u64, mentions: &[Mention]) -> bool
    ensures { result ≡ are_below levels.now limit (mentions_shown mentions.now) }
{
    mentions
        .iter()
        .all(|mention| is_below(levels, limit, *mention))
}

/// Whether no line mentions one of a higher level.
pub fn fall(legend: &[LegendName<'_>], levels: &[u32]) -> bool
    ensures { result ≡ true → Fall (legend_shown legend.now) levels.now }
{
    for place in 0..legend.len() {
        let limit = level_at(levels, place) as u64 + 1;
        if !are_below(levels, limit, &legend[place].mentions) {
            return false;
        }
    }
    true
}
