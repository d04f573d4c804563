//! A compiled rule.

ghost use Rattle.std.specs.Prelude.{◌≡◌, All, IfOk, true};
ghost use Rattle.ps_program.specs.Needs.{rows_move, rows_need};
ghost use Rattle.ps_program.specs.Axes.{LiesAlong};
ghost use Rattle.ps_program.specs.MotionSets.{places_asked};
ghost use Rattle.ps_program.specs.Sleeping.{rows_sleep};
ghost use Rattle.ps_program.specs.Writers.{rows_writer};

use crate::commands::Commands;
use crate::motion_sets::{MotionSet, motions_asked};
use crate::needs::asked_by;
use crate::rows::{Axis, CompiledRow};
use crate::sleeping::told_to_sleep;
use crate::writers::{Writer, writer_of};
use ps_model::{LayeredObject, Memory, MotionTest};
use ps_text::List;
use std::alloc::Global;
use std::rc::Rc;

/// One reading of a rule, compiled. It shares its commands with the rule and its other readings: a copy for each would
/// be one of its message too.
#[derive(Drop)]
pub struct CompiledRule {
    /// How the cells of its rows lie.
    pub axis: Axis,
    pub rows: List<CompiledRow>,
    /// It rewrites cells; else its right is commands alone.
    pub rewrites: bool,
    pub commands: Rc<Commands>,
    /// The objects that its cells need, those of all cells one after the other: where a board has not all of them, the
    /// rule has no place there.
    pub needed: List<LayeredObject>,
    /// The motions that its cells ask for, likewise.
    pub moving: List<MotionTest>,
    /// These motions as a set, by their places.
    pub asked: MotionSet,
    /// No write of its cells may wake a mask of its cells: where a row doesn't fit, it doesn't in the rest of an
    /// attempt. Where this isn't set, it may be so or not.
    pub sleeps: bool,
    /// The cell that alone changes anything, where the rule is one row of two parts and the cell's write keeps the
    /// masks of all others. Where this isn't told, it may be so or not.
    pub writer: Option<Writer>,
    ghost along: { All (LiesAlong axis) rows },
    ghost needs: { needed ≡ rows_need rows },
    ghost moves: { moving ≡ rows_move rows },
    ghost places: { asked ≡ places_asked moving },
    ghost asleep: { sleeps ≡ true → rows_sleep rows ≡ true },
    ghost alone: { rows_writer rows writer ≡ true },
}

impl CompiledRule {
    /// The rule of these rows. `Memory` if there is no room for what its cells ask for.
    pub fn try_new(
        alloc: Global,
        axis: Axis,
        rows: List<CompiledRow>,
        rewrites: bool,
        commands: Rc<Commands>,
    ) -> Result<CompiledRule, Memory>
        requires along { All (LiesAlong axis) rows }
        ensures axis { IfOk result (λ rule. rule.axis ≡ axis) }
        ensures rows { IfOk result (λ rule. rule.rows ≡ rows) }
        ensures rewrites { IfOk result (λ rule. rule.rewrites ≡ rewrites) }
        ensures commands { IfOk result (λ rule. rule.commands ≡ commands) }
    {
        let asked = asked_by(alloc, rows.as_slice())?;
        let motions = motions_asked(asked.motions.as_slice());
        let sleeps = told_to_sleep(rows.as_slice());
        let writer = writer_of(rows.as_slice());
        Ok(CompiledRule {
            axis,
            rows,
            rewrites,
            commands,
            needed: asked.objects,
            moving: asked.motions,
            asked: motions,
            sleeps,
            writer,
        })
    }
}
