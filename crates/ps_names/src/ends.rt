//! Where the synonyms of the legend end.

ghost use Rattle.std.specs.Prelude.{◌≡◌, ◌+◌, Some, None, IfOk, slice_set, slice_index_or, option_map, List};
ghost use Rattle.ps_model.specs.names.Meanings as model;
ghost use Rattle.ps_names.specs.Known.{mention_shown};
ghost use Rattle.ps_names.specs.LegendNames.{legend_shown};
ghost use Rattle.ps_names.specs.MeaningSteps.{behind_synonym};
ghost use Rattle.ps_names.specs.Ends.{IsEnd, AreEnds};

use crate::legend_names::LegendName;
use crate::meanings::behind_synonym;
use crate::mention::Mention;
use ps_model::Memory;
use std::alloc::Global;

/// What is known of where the synonyms after a mention end.
#[derive(Clone, Copy)]
pub enum End {
    /// Nothing.
    Unknown,
    /// Nowhere, as one of them stands for itself.
    Never,
    /// After `passed` of them, at a mention that is no synonym.
    At { passed: u32, mention: Mention },
}

/// The end after a synonym for what has that end.
fn further(end: End) -> End
    ensures { (legend : List model.LegendName) → (mention next : model.Mention) →
        behind_synonym legend mention ≡ Some next → IsEnd legend next end → IsEnd legend mention result }
{
    match end {
        End::Unknown => End::Unknown,
        End::Never => End::Never,
        End::At { passed, mention } => {
            if passed == u32::MAX {
                return End::Unknown;
            }
            let passed = passed + 1;
            End::At { passed, mention }
        }
    }
}

/// What is known of the end after the line of a place.
pub fn end_at(ends: &[End], place: u32) -> End
    ensures { result ≡ slice_index_or ends.now place End.Unknown }
{
    let at = place as usize;
    if at >= ends.len() {
        return End::Unknown;
    }
    ends[at]
}

/// What is known of the end after a mention.
fn end_of(legend: &[LegendName<'_>], ends: &[End], mention: Mention) -> End
    requires { AreEnds (legend_shown legend.now) ends.now }
    ensures { IsEnd (legend_shown legend.now) (mention_shown mention) result }
{
    match mention {
        Mention::Object(_) => End::At { passed: 0, mention },
        Mention::Line(place) => end_at(ends, place),
    }
}

/// Walks to the end after the line of a place, or back to that line.
fn walk(legend: &[LegendName<'_>], place: u32) -> End
    ensures { IsEnd (legend_shown legend.now) (model.OfLine place) result }
{
    let mut mention = Mention::Line(place);
    for passed in 0..u32::MAX {
        let Some(next) = behind_synonym(legend, mention) else {
            return End::At { passed, mention };
        };
        if next == Mention::Line(place) {
            return End::Never;
        }
        if passed as usize >= legend.len() {
            return End::Unknown;
        }
        mention = next;
    }
    End::Unknown
}

/// The end after the line of a place, by that after the next, if this is known; else by a walk.
fn end_behind(legend: &[LegendName<'_>], ends: &[End], place: u32) -> End
    requires { AreEnds (legend_shown legend.now) ends.now }
    ensures { IsEnd (legend_shown legend.now) (model.OfLine place) result }
{
    let mention = Mention::Line(place);
    let Some(next) = behind_synonym(legend, mention) else {
        return End::At { passed: 0, mention };
    };
    let end = end_of(legend, ends, next);
    match end {
        End::Unknown => walk(legend, place),
        End::Never => further(end),
        End::At { .. } => further(end),
    }
}

/// Keeps what is known of the end after the line of a place.
fn set_end(ends: &mut Vec<End>, place: u32, end: End)
    ensures { ends.new.items ≡ slice_set ends.old.items place end }
{
    let at = place as usize;
    if at >= ends.len() {
        return;
    }
    ends[at] = end;
}

/// The ends after the lines of the legend, by their places. Where the lines are looked at after those that they
/// mention, each takes one step, but one of those that stand for themselves.
pub fn ends_of(alloc: Global, legend: &[LegendName<'_>], places: &[u32]) -> Result<Vec<End>, Memory>
    ensures { IfOk result (λ ends. AreEnds (legend_shown legend.now) ends.items) }
{
    let mut ends = Vec::from_elem(alloc, End::Unknown, legend.len())?;
    for place in places {
        let end = end_behind(legend, &ends, *place);
        set_end(&mut ends, *place, end);
    }
    Ok(ends)
}
