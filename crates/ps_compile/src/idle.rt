//! Whether a compiled rule is void: it can do nothing, as the values of its cells' layers tell.

ghost use Rattle.std.specs.Prelude.{◌≡◌, map};
ghost use Rattle.std.specs.List.{list_all, list_any};
ghost use Rattle.ps_program.specs.CommandsShown.{commands_shown};
ghost use Rattle.ps_program.specs.ProgramShown.{cell_shown, row_shown, rows_shown, rule_shown};
ghost use Rattle.ps_compile.specs.IdleRules.{asks, is_idle, is_void_cell, leaves_what_fits};
ghost use Rattle.ps_compile.specs.Claims.{changes_on, changes_where_named, fails_on, fails_where_named};
ghost use Rattle.ps_compile.specs.Claims.{gone_changes, list_fails, object_fails, test_fails, write_changes};

use crate::values::{some_lies_on, some_value};
use ps_model::{LayerId, LayerWrite, LayeredObject, MotionTest};
use ps_names::Names;
use ps_program::{Commands, CompiledCell, CompiledRow, CompiledRule};
use ps_text::List;

/// Whether no value of a layer of the game fits.
fn fails_on(names: &Names, cell: &CompiledCell, layer: LayerId) -> bool
    ensures { result ≡ fails_on names.now (cell_shown cell.now) layer.0 }
{
    layer.0 < names.layer_count() && !some_value(names, cell, false, layer)
}

/// Whether so it is of the layer of one of these objects.
fn some_object_fails(names: &Names, cell: &CompiledCell, objects: &[LayeredObject]) -> bool
    ensures { result ≡ list_any (object_fails names.now (cell_shown cell.now)) objects.now }
{
    objects.iter().any(|each| fails_on(names, cell, each.layer))
}

/// Whether so it is of the layer of the first of these objects; without one, of any layer.
fn list_fails(names: &Names, cell: &CompiledCell, objects: &[LayeredObject]) -> bool
    ensures { result ≡ list_fails names.now (cell_shown cell.now) objects.now }
{
    if objects.is_empty() {
        return 0 < names.layer_count();
    }
    fails_on(names, cell, objects[0].layer)
}

/// Whether so it is of the layer of the first object of one of these lists.
fn some_list_fails(names: &Names, cell: &CompiledCell, lists: &[List<LayeredObject>]) -> bool
    ensures { result ≡ list_any (list_fails names.now (cell_shown cell.now)) lists.now }
{
    for objects in lists {
        if list_fails(names, cell, objects.as_slice()) {
            return true;
        }
    }
    false
}

/// Whether so it is of the layer that is asked for a motion, where no object of it is needed.
fn test_fails(names: &Names, cell: &CompiledCell, test: MotionTest) -> bool
    ensures { result ≡ test_fails names.now (cell_shown cell.now) test }
{
    !some_lies_on(test.layer, cell.mask.needed.as_slice()) && fails_on(names, cell, test.layer)
}

/// Whether so it is of the layer of one of these tests.
fn some_test_fails(names: &Names, cell: &CompiledCell, tests: &[MotionTest]) -> bool
    ensures { result ≡ list_any (test_fails names.now (cell_shown cell.now)) tests.now }
{
    tests.iter().any(|test| test_fails(names, cell, *test))
}

/// Whether so it is of a layer that the mask names.
fn fails_where_named(names: &Names, cell: &CompiledCell) -> bool
    ensures { result ≡ fails_where_named names.now (cell_shown cell.now) }
{
    some_object_fails(names, cell, cell.mask.needed.as_slice())
        || some_list_fails(names, cell, cell.mask.one_of.as_slice())
        || some_test_fails(names, cell, cell.mask.motions.as_slice())
}

/// Whether a cell fits nothing: it has a layer of which no value fits. One that the mask doesn't name may be bare.
fn is_void_cell(names: &Names, cell: &CompiledCell) -> bool
    ensures { result ≡ is_void_cell names.now (cell_shown cell.now) }
{
    fails_where_named(names, cell)
}

/// Whether a cell of the part fits nothing.
fn has_void_part(names: &Names, part: &[CompiledCell]) -> bool
    ensures { result ≡ list_any (is_void_cell names.now) (map cell_shown part.now) }
{
    for cell in part {
        if is_void_cell(names, cell) {
            return true;
        }
    }
    false
}

/// Whether a cell of the row does.
fn has_void_row(names: &Names, row: &CompiledRow) -> bool
    ensures { result ≡ list_any (list_any (is_void_cell names.now)) (row_shown row.now) }
{
    for part in row.parts.as_slice() {
        if has_void_part(names, part.as_slice()) {
            return true;
        }
    }
    false
}

/// Whether a cell of the rows does.
fn has_void_cell(names: &Names, rows: &[CompiledRow]) -> bool
    ensures { result ≡ list_any (list_any (list_any (is_void_cell names.now))) (rows_shown rows.now) }
{
    for row in rows {
        if has_void_row(names, row) {
            return true;
        }
    }
    false
}

/// Whether some value of a layer of the game fits and is changed.
fn changes_on(names: &Names, cell: &CompiledCell, layer: LayerId) -> bool
    ensures { result ≡ changes_on names.now (cell_shown cell.now) layer.0 }
{
    layer.0 < names.layer_count() && some_value(names, cell, true, layer)
}

/// Whether so it is of the layer of one of these writes.
fn some_write_changes(names: &Names, cell: &CompiledCell, writes: &[LayerWrite]) -> bool
    ensures { result ≡ list_any (write_changes names.now (cell_shown cell.now)) writes.now }
{
    writes
        .iter()
        .any(|each| changes_on(names, cell, each.layer))
}

/// Whether so it is of the layer of one of these objects, which go.
fn some_gone_changes(names: &Names, cell: &CompiledCell, gone: &[LayeredObject]) -> bool
    ensures { result ≡ list_any (gone_changes names.now (cell_shown cell.now)) gone.now }
{
    gone.iter().any(|each| changes_on(names, cell, each.layer))
}

/// Whether so it is of a layer that the write names.
fn changes_where_named(names: &Names, cell: &CompiledCell) -> bool
    ensures { result ≡ changes_where_named names.now (cell_shown cell.now) }
{
    some_write_changes(names, cell, cell.write.layers.as_slice())
        || some_gone_changes(names, cell, cell.write.gone.as_slice())
}

/// Whether a cell leaves what it fits as it is: it has no layer of which a value fits and is changed. One that the
/// write doesn't name isn't changed.
fn leaves_what_fits(names: &Names, cell: &CompiledCell) -> bool
    ensures { result ≡ leaves_what_fits names.now (cell_shown cell.now) }
{
    !changes_where_named(names, cell)
}

/// Whether all cells of the part leave what they fit as it is.
fn leaves_part(names: &Names, part: &[CompiledCell]) -> bool
    ensures { result ≡ list_all (leaves_what_fits names.now) (map cell_shown part.now) }
{
    for cell in part {
        if !leaves_what_fits(names, cell) {
            return false;
        }
    }
    true
}

/// Whether all cells of the row do.
fn leaves_row(names: &Names, row: &CompiledRow) -> bool
    ensures { result ≡ list_all (list_all (leaves_what_fits names.now)) (row_shown row.now) }
{
    for part in row.parts.as_slice() {
        if !leaves_part(names, part.as_slice()) {
            return false;
        }
    }
    true
}

/// Whether all cells of the rows do.
fn leaves_all(names: &Names, rows: &[CompiledRow]) -> bool
    ensures { result ≡ list_all (list_all (list_all (leaves_what_fits names.now))) (rows_shown rows.now) }
{
    for row in rows {
        if !leaves_row(names, row) {
            return false;
        }
    }
    true
}

/// Whether the commands ask something of the turn.
fn asks(commands: &Commands) -> bool
    ensures { result ≡ asks (commands_shown commands.now) }
{
    commands.cancel
        || commands.restart
        || commands.again
        || commands.checkpoint
        || commands.win
        || commands.message.is_some()
}

/// Whether the rule is void.
pub fn is_idle(names: &Names, rule: &CompiledRule) -> bool
    ensures { result ≡ is_idle names.now (rule_shown rule.now) }
{
    if has_void_cell(names, rule.rows.as_slice()) {
        return true;
    }
    if asks(&rule.commands) {
        return false;
    }
    !rule.rewrites || leaves_all(names, rule.rows.as_slice())
}
