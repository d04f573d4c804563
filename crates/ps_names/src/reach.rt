//! What a name of the legend reaches: the objects and the legend lines that it mentions, itself or through other lines.

ghost use Rattle.std.specs.Prelude.{◌≡◌, ◌≤◌, ◌<◌, ◌+◌, ◌++◌, ◌∷◌, [], IfOk, OnOk, map, length, reverse};
ghost use Rattle.std.specs.Prelude.{slice_index_or, slice_set, replicate, false, true, ℕ};
ghost use Rattle.ps_model.specs.names.Names.{is_among};
ghost use Rattle.ps_model.specs.names.Meanings.{mentions_of, mention_count, is_on_cycle, objects_of};
ghost use Rattle.ps_names.specs.Known.{mention_shown, mentions_shown};
ghost use Rattle.ps_names.specs.LegendNames.{name_shown, legend_shown, is_reached, with_reached, reached_from};
ghost use Rattle.ps_names.specs.LegendNames.{reached_shown, waiting, reached_with};
ghost use Rattle.ps_names.specs.Levels.{Fall};

use crate::legend_names::LegendName;
use crate::levels::{are_below, level_at};
use crate::mention::Mention;
use ps_model::{Memory, ObjectId};
use ps_text::List;
use std::alloc::Global;

/// What was reached so far, and what waits to be looked at.
#[derive(Drop)]
struct Reach {
    /// The objects that were reached, each once, where it was reached first.
    objects: Vec<ObjectId>,
    /// Which legend lines were reached, by their places.
    lines: Vec<bool>,
    /// The mentions that wait, the next one last.
    waiting: Vec<Mention>,
}

/// Whether a line of a place was reached.
fn is_marked(lines: &[bool], place: u32) -> bool
    ensures { result ≡ slice_index_or lines.now place false }
{
    let at = place as usize;
    at < lines.len() && lines[at]
}

/// Marks the line of a place.
fn mark(lines: &mut [bool], place: u32)
    ensures { lines.new ≡ slice_set lines.old place true }
{
    let at = place as usize;
    if at >= lines.len() {
        return;
    }
    lines[at] = true;
}

/// What a mention's own line mentions; an object mentions nothing.
fn mentions_of<'a>(legend: &'a [LegendName<'_>], mention: Mention) -> &'a [Mention]
    ensures { mentions_shown result.now ≡ mentions_of (legend_shown legend.entry.now) (mention_shown mention) }
{
    let Mention::Line(place) = mention else {
        return &[];
    };
    let Some(name) = legend.get(place as usize) else {
        return &[];
    };
    &name.mentions
}

impl Reach {
    /// Nothing of a legend of `lines` lines was reached, and these mentions wait.
    fn start(alloc: Global, lines: usize, mentions: &[Mention]) -> Result<Reach, Memory>
        ensures objects { IfOk result (λ reach. reach.objects.items ≡ []) }
        ensures lines { IfOk result (λ reach. reach.lines.items ≡ replicate lines false) }
        ensures waits { IfOk result (λ reach. waiting reach ≡ mentions_shown mentions.now) }
    {
        let mut reach = Reach {
            objects: Vec::new(alloc),
            lines: Vec::from_elem(alloc, false, lines)?,
            waiting: Vec::new(alloc),
        };
        reach.wait_for(mentions)?;
        Ok(reach)
    }

    /// Puts mentions before those that wait.
    fn wait_for(&mut self, mentions: &[Mention]) -> Result<(), Memory>
        ensures waits { OnOk result (waiting self.new ≡ mentions_shown mentions.now ++ waiting self.old) }
        ensures reached { reached_shown self.new ≡ reached_shown self.old }
    {
        let count = mentions.len();
        for behind in 0..count {
            self.waiting.push(mentions[count - 1 - behind])?;
        }
        Ok(())
    }

    /// Whether a mention was reached. As a game has at most `OBJECT_LIMIT` objects, each is looked for among few.
    fn has(&self, mention: Mention) -> bool
        ensures { result ≡ is_reached (reached_shown self.now) (mention_shown mention) }
    {
        match mention {
            Mention::Object(object) => self.objects.contains(&object),
            Mention::Line(place) => is_marked(&self.lines, place),
        }
    }

    /// Keeps that a mention was reached.
    fn put(&mut self, mention: Mention) -> Result<(), Memory>
        ensures reached { OnOk result (reached_shown self.new
            ≡ with_reached (reached_shown self.old) (mention_shown mention)) }
        ensures waits { waiting self.new ≡ waiting self.old }
    {
        match mention {
            Mention::Object(object) => {
                self.objects.push(object)?;
                Ok(())
            }
            Mention::Line(place) => {
                mark(&mut self.lines, place);
                Ok(())
            }
        }
    }

    /// Looks at the next mention that waits.
    fn step(&mut self, legend: &[LegendName<'_>]) -> Result<(), Memory>
        ensures { OnOk result ((rest : ℕ) →
            reached_with legend.now rest self.new ≡ reached_with legend.now (1 + rest) self.old) }
    {
        let Some(mention) = self.waiting.pop() else {
            return Ok(());
        };
        if self.has(mention) {
            return Ok(());
        }
        self.put(mention)?;
        self.wait_for(mentions_of(legend, mention))?;
        Ok(())
    }

    /// Looks at `count` mentions that wait, or at all of them if there are fewer.
    fn steps(&mut self, legend: &[LegendName<'_>], count: usize) -> Result<(), Memory>
        ensures { OnOk result ((rest : ℕ) →
            reached_with legend.now rest self.new ≡ reached_with legend.now (count + rest) self.old) }
    {
        for _step in 0..count {
            self.step(legend)?;
        }
        Ok(())
    }
}

/// What these mentions reach. Each line's mentions are looked at once, so it takes no longer than there are mentions.
fn reach_of(alloc: Global, legend: &[LegendName<'_>], mentions: &[Mention]) -> Result<Reach, Memory>
    ensures { IfOk result (λ reach. reached_shown reach
        ≡ reached_from (legend_shown legend.now) (length mentions.now + mention_count (legend_shown legend.now))
        (record { objects = []; lines = replicate (length legend.now) false }) (mentions_shown mentions.now)) }
{
    let mut reach = Reach::start(alloc, legend.len(), mentions)?;
    reach.steps(legend, mentions.len())?;
    for name in legend {
        if reach.waiting.is_empty() {
            return Ok(reach);
        }
        reach.steps(legend, name.mentions.len())?;
    }
    Ok(reach)
}

/// Whether the name of a place stands for itself through legend lines. Where it mentions only lines of lower levels it
/// doesn't; any other is looked for among what it reaches.
pub fn is_on_cycle(
    alloc: Global,
    legend: &[LegendName<'_>],
    levels: &[u32],
    place: u32,
    name: &LegendName<'_>,
) -> Result<bool, Memory>
    requires there { place < length legend.now }
    requires falls { Fall (legend_shown legend.now) levels.now }
    ensures { IfOk result (λ cyclic. cyclic ≡ is_on_cycle (legend_shown legend.now) place (name_shown name.now)) }
{
    let limit = level_at(levels, place as usize) as u64;
    if are_below(levels, limit, &name.mentions) {
        return Ok(false);
    }
    let reach = reach_of(alloc, legend, &name.mentions)?;
    Ok(is_marked(&reach.lines, place))
}

/// The objects that a name of the legend speaks of, itself or through other names.
pub fn objects_of(
    alloc: Global,
    legend: &[LegendName<'_>],
    name: &LegendName<'_>,
) -> Result<List<ObjectId>, Memory>
    ensures { IfOk result (λ objects. objects ≡ objects_of (legend_shown legend.now) (name_shown name.now)) }
{
    let reach = reach_of(alloc, legend, &name.mentions)?;
    Ok(List::from_vec(reach.objects))
}
