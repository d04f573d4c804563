//! The tree of a rule.

ghost use Rattle.std.specs.Prelude.{◌≡◌, IfOk, map};
ghost use Rattle.ps_model.specs.text.LineNumbers.{HasLine, line_at};
ghost use Rattle.ps_model.specs.rules.RuleShape.{paired_cells, paired_rows};
ghost use Rattle.ps_model.specs.rules.RuleTree.{rule_of};
ghost use Rattle.ps_rules.specs.CellsShown.{cell_rows_shown};
ghost use Rattle.ps_rules.specs.RulesShown.{rule_shown};
ghost use Rattle.ps_rules.specs.ShapesShown.{shape_shown};

use crate::cells::WrittenCell;
use crate::commands::{commands_of, directions_given};
use crate::kinds::{Kind, has_kind};
use crate::parts::rows_of_cells;
use crate::shapes::RuleShape;
use crate::sides::{at_end, has_rows};
use crate::tree::SourceRule;
use ps_model::Memory;
use ps_text::Source;
use std::alloc::Global;
use std::rc::Rc;

/// The tree of the rule of the line of that number, by its shape and its rows' cells.
pub fn rule_of(
    alloc: Global,
    source: &Source,
    line: u32,
    shape: &RuleShape<'_, '_>,
    cells: &[Vec<WrittenCell<'_, '_>>],
) -> Result<SourceRule, Memory>
    requires there { HasLine source.now line }
    requires paired { cell_rows_shown cells.now ≡ map paired_cells (paired_rows (shape_shown shape.now)) }
    ensures { IfOk result (λ rule. rule_shown rule ≡ rule_of (line_at source.now line) (shape_shown shape.now)) }
{
    let ahead = shape.left.ahead;
    let rows = rows_of_cells(alloc, cells)?;
    let directions = directions_given(alloc, ahead)?;
    let asked = commands_of(alloc, source, line, at_end(&shape.right))?;
    let commands = Rc::new(alloc, asked)?;
    Ok(SourceRule {
        line,
        late: has_kind(Kind::Late, ahead),
        joined: has_kind(Kind::Plus, ahead),
        directions,
        rows,
        rewrites: has_rows(&shape.right),
        commands,
    })
}
