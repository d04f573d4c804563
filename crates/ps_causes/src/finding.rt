//! The cause of a fault.

ghost use Rattle.std.specs.Prelude.{◌≡◌, IfOk};
ghost use Rattle.ps_model.specs.text.LineNumbers.{HasLine};
ghost use Rattle.ps_causes.specs.Causes.{IsToldAt};

use crate::barred::barred_cause;
use crate::broken_arrows::broken_arrow_cause;
use crate::causes::Cause;
use crate::counts::counts_cause;
use crate::glyphs::glyph_cause;
use crate::going_on::going_on_cause;
use crate::headers::{late_cause, like_header_cause, missing_cause};
use crate::hidden_headers::legend_cause;
use crate::looked_for::{CAPTIONS, COMMENTED, LONG_ARROW, MISPLACED, OTHER_LINES, slips_of};
use crate::loops::loop_cause;
use crate::object_causes::{object_cause, row_name_cause};
use crate::only_commas::commas_cause;
use crate::open_glyphs::open_glyph_cause;
use crate::pairs::pair_cause;
use crate::rule_words::meaningless_cause;
use crate::shares::Sought;
use crate::slashes::slashes_cause;
use crate::slip_causes::slip_cause;
use crate::twice::twice_cause;
use crate::unbound::unbound_cause;
use crate::undeclared::undeclared_cause;
use crate::unlayered::unlayered_cause;
use crate::wholes::{aggregate_cause, one_layer_cause, property_cause, whole_cause};
use ps_facts::{declared_names, is_among};
use ps_model::{Fault, FaultKind, Memory};
use ps_text::Source;
use std::alloc::Global;

/// The names of a cell that name one object: a word that stands there twice, or else two that stand for one.
fn name_twice_cause<'a>(alloc: Global, source: &'a Source, line: u32) -> Result<Cause<'a>, Memory>
    requires { HasLine source.now line }
    ensures { IfOk result (IsToldAt source.now line) }
{
    let cause = slip_cause(alloc, source, line, slips_of(FaultKind::NameTwice))?;
    if cause.is_told() {
        return Ok(cause);
    }
    pair_cause(alloc, source, line, Sought::Name)
}

/// The names of a cell that never stand in one: two that share a layer whatever is chosen, or else two that share one.
fn impossible_cause<'a>(alloc: Global, source: &'a Source, line: u32) -> Result<Cause<'a>, Memory>
    requires { HasLine source.now line }
    ensures { IfOk result (IsToldAt source.now line) }
{
    let cause = pair_cause(alloc, source, line, Sought::Layer)?;
    if cause.is_told() {
        return Ok(cause);
    }
    pair_cause(alloc, source, line, Sought::SomeLayer)
}

/// A name that is declared above, or else in its own line before.
fn name_again_cause<'a>(alloc: Global, source: &'a Source, line: u32) -> Result<Cause<'a>, Memory>
    requires { HasLine source.now line }
    ensures { IfOk result (IsToldAt source.now line) }
{
    let cause = twice_cause(alloc, source, line)?;
    if cause.is_told() {
        return Ok(cause);
    }
    slip_cause(alloc, source, line, slips_of(FaultKind::Twice))
}

/// The front of an arrow that is too long, or else a word of a rule that means nothing. If there is none, one that
/// can't stand where it stands.
fn unknown_word_cause<'a>(alloc: Global, source: &'a Source, line: u32) -> Result<Cause<'a>, Memory>
    requires { HasLine source.now line }
    ensures { IfOk result (IsToldAt source.now line) }
{
    let cause = slip_cause(alloc, source, line, &LONG_ARROW)?;
    if cause.is_told() {
        return Ok(cause);
    }
    let cause = meaningless_cause(alloc, source, line)?;
    if cause.is_told() {
        return Ok(cause);
    }
    slip_cause(alloc, source, line, &MISPLACED)
}

/// An object that is read from a row of a sprite, or else from a header; or else one that no layer has.
fn no_layer_cause<'a>(alloc: Global, source: &'a Source, line: u32) -> Result<Cause<'a>, Memory>
    requires { HasLine source.now line }
    ensures { IfOk result (IsToldAt source.now line) }
{
    let cause = row_name_cause(alloc, source, line)?;
    if cause.is_told() {
        return Ok(cause);
    }
    let cause = legend_cause(alloc, source, line)?;
    if cause.is_told() {
        return Ok(cause);
    }
    unlayered_cause(alloc, source, line)
}

/// A character of a row that is no name, or the blank within it. Where such a row is meant as a text, that is told.
fn glyph_or_text_cause<'a>(
    alloc: Global,
    text: &[u8],
    source: &'a Source,
    line: u32,
) -> Result<Cause<'a>, Memory>
    requires line { HasLine source.now line }
    requires text { source.now ≡ text.now }
    ensures { IfOk result (IsToldAt source.now line) }
{
    let cause = glyph_cause(alloc, text, source, line)?;
    let Cause::UnknownGlyph { .. } = cause else {
        return Ok(cause);
    };
    let caption = slip_cause(alloc, source, line, &CAPTIONS)?;
    if caption.is_told() {
        return Ok(caption);
    }
    Ok(cause)
}

/// A comment of a row that begins as elsewhere, where `/` is no name; or else a word that is meant as `message`. If
/// there is none, a character of the row that is no name.
fn row_cause<'a>(
    alloc: Global,
    text: &[u8],
    source: &'a Source,
    line: u32,
) -> Result<Cause<'a>, Memory>
    requires line { HasLine source.now line }
    requires text { source.now ≡ text.now }
    ensures { IfOk result (IsToldAt source.now line) }
{
    let cause = slashes_cause(alloc, source, line)?;
    if cause.is_told() && !is_among(&declared_names(alloc, source)?, "/") {
        return Ok(cause);
    }
    let cause = slip_cause(alloc, source, line, slips_of(FaultKind::UnknownGlyph))?;
    if cause.is_told() {
        return Ok(cause);
    }
    glyph_or_text_cause(alloc, text, source, line)
}

/// Where a line of LEGEND leaves its forms, or a comma of a line of COLLISIONLAYERS without a name.
fn bad_line_cause<'a>(
    alloc: Global,
    text: &[u8],
    source: &'a Source,
    line: u32,
) -> Result<Cause<'a>, Memory>
    requires line { HasLine source.now line }
    requires text { source.now ≡ text.now }
    ensures { IfOk result (IsToldAt source.now line) }
{
    let cause = slip_cause(alloc, source, line, slips_of(FaultKind::BadLine))?;
    if cause.is_told() {
        return Ok(cause);
    }
    commas_cause(alloc, text, source, line)
}

/// An arrow in two words, or else what is wrong with brackets, bars and arrow of a rule.
fn bracket_cause<'a>(alloc: Global, source: &'a Source, line: u32) -> Result<Cause<'a>, Memory>
    requires { HasLine source.now line }
    ensures { IfOk result (IsToldAt source.now line) }
{
    let cause = broken_arrow_cause(alloc, source, line)?;
    if cause.is_told() {
        return Ok(cause);
    }
    slip_cause(alloc, source, line, slips_of(FaultKind::BadBracket))
}

/// That a rule is a comment but for its arrow, or goes on in the next line; or else what is wrong with its arrow, rows
/// and cells.
fn shape_cause<'a>(alloc: Global, source: &'a Source, fault: Fault) -> Result<Cause<'a>, Memory>
    requires { HasLine source.now fault.line }
    ensures { IfOk result (IsToldAt source.now fault.line) }
{
    let cause = slip_cause(alloc, source, fault.line, &COMMENTED)?;
    if cause.is_told() {
        return Ok(cause);
    }
    let cause = going_on_cause(alloc, source, fault.line)?;
    if cause.is_told() {
        return Ok(cause);
    }
    match fault.kind {
        FaultKind::RowsDiffer => counts_cause(alloc, source, fault.line),
        FaultKind::BadBracket => bracket_cause(alloc, source, fault.line),
        _ => slip_cause(alloc, source, fault.line, slips_of(fault.kind)),
    }
}

/// Whether a line with that fault may be meant as a comment, as a header, or for another section.
fn may_be_another(kind: FaultKind) -> bool {
    match kind {
        FaultKind::BadObject
        | FaultKind::UnknownName
        | FaultKind::BadLine
        | FaultKind::BadBracket
        | FaultKind::UnknownWord
        | FaultKind::BadWin
        | FaultKind::UnknownWinName => true,
        _ => false,
    }
}

/// That a line begins as a comment does elsewhere, belongs to another section, or is written much like a header. It is
/// told of a line with a fault that may come of that.
fn other_line_cause<'a>(
    alloc: Global,
    source: &'a Source,
    fault: Fault,
) -> Result<Cause<'a>, Memory>
    requires { HasLine source.now fault.line }
    ensures { IfOk result (IsToldAt source.now fault.line) }
{
    if !may_be_another(fault.kind) {
        return Ok(Cause::Untold);
    }
    let cause = slashes_cause(alloc, source, fault.line)?;
    if cause.is_told() {
        return Ok(cause);
    }
    if fault.kind == FaultKind::BadObject {
        return legend_cause(alloc, source, fault.line);
    }
    let cause = slip_cause(alloc, source, fault.line, &OTHER_LINES)?;
    if cause.is_told() {
        return Ok(cause);
    }
    like_header_cause(alloc, source, fault.line)
}

/// The cause of a fault at a line of the text, as its section has it.
fn own_cause<'a>(
    alloc: Global,
    text: &[u8],
    source: &'a Source,
    fault: Fault,
) -> Result<Cause<'a>, Memory>
    requires line { HasLine source.now fault.line }
    requires text { source.now ≡ text.now }
    ensures { IfOk result (IsToldAt source.now fault.line) }
{
    match fault.kind {
        FaultKind::UnknownName | FaultKind::UnknownWinName => undeclared_cause(
            alloc, source, fault.line,
        ),
        FaultKind::UnknownWord => unknown_word_cause(alloc, source, fault.line),
        FaultKind::NoLayer => no_layer_cause(alloc, source, fault.line),
        FaultKind::SectionOrder => late_cause(alloc, source, fault.line),
        FaultKind::NoSection => missing_cause(alloc, text, source),
        FaultKind::Twice => name_again_cause(alloc, source, fault.line),
        FaultKind::UnknownGlyph => row_cause(alloc, text, source, fault.line),
        FaultKind::PropertyGlyph => open_glyph_cause(alloc, source, fault.line),
        FaultKind::SameLayerAggregate => one_layer_cause(alloc, source, fault.line),
        FaultKind::AggregateInProperty | FaultKind::AggregateInLayer => aggregate_cause(
            alloc, source, fault.line,
        ),
        FaultKind::PropertyInAggregate => property_cause(alloc, source, fault.line),
        FaultKind::NameTwice => name_twice_cause(alloc, source, fault.line),
        FaultKind::Impossible => impossible_cause(alloc, source, fault.line),
        FaultKind::BadLine => bad_line_cause(alloc, text, source, fault.line),
        FaultKind::BadBackground | FaultKind::BadPlayer => whole_cause(alloc, source, fault.line),
        FaultKind::Loop => loop_cause(alloc, source, fault.line),
        FaultKind::BadObject => object_cause(alloc, source, fault.line),
        FaultKind::BadBracket | FaultKind::RowsDiffer | FaultKind::NothingRight => shape_cause(
            alloc, source, fault,
        ),
        FaultKind::NoAggregate => barred_cause(alloc, source, fault.line),
        FaultKind::Unbound => unbound_cause(alloc, source, fault.line),
        _ => slip_cause(alloc, source, fault.line, slips_of(fault.kind)),
    }
}

/// The cause of a fault at a line of the text.
fn cause_at<'a>(
    alloc: Global,
    text: &[u8],
    source: &'a Source,
    fault: Fault,
) -> Result<Cause<'a>, Memory>
    requires line { HasLine source.now fault.line }
    requires text { source.now ≡ text.now }
    ensures { IfOk result (IsToldAt source.now fault.line) }
{
    let cause = other_line_cause(alloc, source, fault)?;
    if cause.is_told() {
        return Ok(cause);
    }
    own_cause(alloc, text, source, fault)
}

/// The cause of a fault of a text. Of a line that the text hasn't nothing is told.
///
/// # Errors
///
/// `Memory` if a growth was refused.
pub fn cause_of<'a>(
    alloc: Global,
    text: &[u8],
    source: &'a Source,
    fault: Fault,
) -> Result<Cause<'a>, Memory>
    requires { source.now ≡ text.now }
    ensures { IfOk result (IsToldAt source.now fault.line) }
{
    if fault.line == 0 || fault.line > source.lines() {
        return Ok(Cause::Untold);
    }
    cause_at(alloc, text, source, fault)
}
