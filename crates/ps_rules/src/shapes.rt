//! The shape of a rule: `->` parts its line in a left and a right side. Brackets part a side in rows and what stands
//! outside them. Bars part a row in cells.

ghost use Rattle.std.specs.Prelude.{◌≡◌, IfOk, option_map, map};
ghost use Rattle.ps_model.specs.text.OptionSteps.{all_there};
ghost use Rattle.ps_model.specs.rules.RuleShape.{row_of, side_of, shape_of, shape_of_parts};
ghost use Rattle.ps_rules.specs.Kinds.{parts_shown};
ghost use Rattle.ps_rules.specs.ShapesShown.{row_shown, rows_shown, side_shown, shape_shown};
ghost use Rattle.ps_rules.specs.SymbolsShown.{tokens_shown};

use crate::kinds::{Kind, cut_at, has_kind};
use crate::symbols::Token;
use ps_model::Memory;
use std::alloc::Global;

/// A row as it is written: the words of each cell, and those after its `]` up to the next row or the side's end.
#[derive(Drop)]
pub struct WrittenRow<'a, 'n> {
    pub cells: Vec<&'a [Token<'n>]>,
    pub behind: &'a [Token<'n>],
}

/// A side as it is written: the words before its first row, and its rows.
#[derive(Drop)]
pub struct WrittenSide<'a, 'n> {
    pub ahead: &'a [Token<'n>],
    pub rows: Vec<WrittenRow<'a, 'n>>,
}

/// A rule as it is written.
#[derive(Drop)]
pub struct RuleShape<'a, 'n> {
    pub left: WrittenSide<'a, 'n>,
    pub right: WrittenSide<'a, 'n>,
}

/// The row of what stands after a `[`, up to the next one.
fn row_of<'a, 'n>(
    alloc: Global,
    tokens: &'a [Token<'n>],
) -> Result<Option<WrittenRow<'a, 'n>>, Memory>
    ensures { IfOk result (λ row. option_map row_shown row ≡ row_of (tokens_shown tokens.entry.now)) }
{
    let parts = cut_at(alloc, Kind::Close, tokens)?;
    if parts.len() != 2 {
        return Ok(None);
    }
    let cells = cut_at(alloc, Kind::Bar, parts[0])?;
    Ok(Some(WrittenRow {
        cells,
        behind: parts[1],
    }))
}

/// The rows of what stands after each `[`, if each is one.
fn rows_of<'a, 'n>(
    alloc: Global,
    parts: &[&'a [Token<'n>]],
) -> Result<Option<Vec<WrittenRow<'a, 'n>>>, Memory>
    ensures { IfOk result (λ rows. option_map (λ made. rows_shown made.items) rows
        ≡ all_there (map row_of (parts_shown parts.now))) }
{
    let mut rows = Vec::new(alloc);
    for part in parts {
        let Some(row) = row_of(alloc, part)? else {
            return Ok(None);
        };
        rows.push(row)?;
    }
    Ok(Some(rows))
}

/// The side of the words left or right of `->`, if its brackets pair.
fn side_of<'a, 'n>(
    alloc: Global,
    tokens: &'a [Token<'n>],
) -> Result<Option<WrittenSide<'a, 'n>>, Memory>
    ensures { IfOk result (λ side. option_map side_shown side ≡ side_of (tokens_shown tokens.entry.now)) }
{
    let parts = cut_at(alloc, Kind::Open, tokens)?;
    let Some((ahead, others)) = parts.split_first() else {
        return Ok(None);
    };
    let Some(rows) = rows_of(alloc, others)? else {
        return Ok(None);
    };
    if has_kind(Kind::Close, ahead) {
        return Ok(None);
    }
    Ok(Some(WrittenSide { ahead, rows }))
}

/// The shape of a rule by the parts between its arrows, if these are its two sides. The parts are lent, so that none of
/// the return paths gives them back.
fn shape_of_parts<'a, 'n>(
    alloc: Global,
    parts: &[&'a [Token<'n>]],
) -> Result<Option<RuleShape<'a, 'n>>, Memory>
    ensures { IfOk result (λ shape. option_map shape_shown shape ≡ shape_of_parts (parts_shown parts.now)) }
{
    let [before, behind] = parts else {
        return Ok(None);
    };
    let Some(left) = side_of(alloc, before)? else {
        return Ok(None);
    };
    let Some(right) = side_of(alloc, behind)? else {
        return Ok(None);
    };
    Ok(Some(RuleShape { left, right }))
}

/// The shape of a rule's words, if they have one.
pub fn shape_of<'a, 'n>(
    alloc: Global,
    tokens: &'a [Token<'n>],
) -> Result<Option<RuleShape<'a, 'n>>, Memory>
    ensures { IfOk result (λ shape. option_map shape_shown shape ≡ shape_of (tokens_shown tokens.entry.now)) }
{
    let parts = cut_at(alloc, Kind::Arrow, tokens)?;
    shape_of_parts(alloc, &parts)
}
