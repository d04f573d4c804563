//! The warnings of a text.

ghost use Rattle.std.specs.Prelude.{◌≡◌, IfOk, Some};
ghost use Rattle.ps_model.specs.game.Games.{game, game_of_lines};
ghost use Rattle.ps_model.specs.text.Lines.{lines_of};
ghost use Rattle.ps_sections.specs.SectionPlaces.{AreSections};
ghost use Rattle.ps_warnings.specs.Warnings.{warnings_in, warnings_of_lines, warnings};

use crate::declarations::warn_of_declarations;
use crate::in_order::push_in_order;
use crate::kinds::Warning;
use crate::level_starts::entry_numbers;
use crate::levels::warn_of_levels;
use crate::prelude_lines::warn_of_prelude;
use crate::rule_lines::warn_of_rule_lines;
use crate::win_lines::warn_of_win_lines;
use crate::word_lines::warn_of_level_lines;
use ps_game::{Game, read_game};
use ps_model::{Memory, Refusal};
use ps_sections::{Sections, read_sections};
use ps_text::Source;
use std::alloc::Global;

/// The warnings of a game, in the order of lines.
fn warnings_in(
    alloc: Global,
    source: &Source,
    sections: &Sections,
    game: &Game,
) -> Result<Vec<Warning>, Memory>
    requires sections { AreSections source.now sections.now }
    requires game { game_of_lines (lines_of source.now) ≡ Some game.now }
    ensures { IfOk result (λ told. told.items ≡ warnings_in game.now (lines_of source.now)) }
{
    let mut told = Vec::new(alloc);
    warn_of_prelude(alloc, source, sections, game, &mut told)?;
    warn_of_declarations(alloc, source, sections, game, &mut told)?;
    warn_of_rule_lines(alloc, source, sections, game, &mut told)?;
    warn_of_win_lines(alloc, source, sections, game, &mut told)?;
    let numbers = entry_numbers(alloc, source, &sections.levels)?;
    let mut levels = Vec::new(alloc);
    warn_of_levels(&game.names, &numbers, &game.entries, &mut levels)?;
    let mut rows = Vec::new(alloc);
    warn_of_level_lines(alloc, source, &sections.levels, &mut rows)?;
    push_in_order(&mut told, &levels, &rows)?;
    Ok(told)
}

/// The warnings of the lines of a text whose game is this.
#[tactic(auto, using(crate::proofs::WarningsMade::lines_fine))]
fn warnings_of_source(alloc: Global, source: &Source, game: &Game) -> Result<Vec<Warning>, Memory>
    requires { game_of_lines (lines_of source.now) ≡ Some game.now }
    ensures { IfOk result (λ told. told.items ≡ warnings_of_lines (lines_of source.now)) }
{
    match read_sections(alloc, source) {
        Ok(sections) => {
            let told = warnings_in(alloc, source, &sections, game)?;
            Ok(told)
        }
        Err(Refusal::Refused(fault)) => {
            // A game has none.
            let _ = fault;
            Ok(Vec::new(alloc))
        }
        Err(Refusal::Memory) => Err(Memory),
    }
}

/// The warnings of a text whose game is this.
#[tactic(auto, using(crate::proofs::WarningsMade::text_faulty))]
fn warnings_of_game(alloc: Global, text: &[u8], read: &Game) -> Result<Vec<Warning>, Memory>
    requires { game text.now ≡ Some read.now }
    ensures { IfOk result (λ told. told.items ≡ warnings text.now) }
{
    match Source::read(alloc, text) {
        Ok(source) => {
            let told = warnings_of_source(alloc, &source, read)?;
            Ok(told)
        }
        Err(Refusal::Refused(fault)) => {
            // A game has none.
            let _ = fault;
            Ok(Vec::new(alloc))
        }
        Err(Refusal::Memory) => Err(Memory),
    }
}

/// The warnings of a text that is a game, in the order of lines. A text with a fault has none.
///
/// # Errors
///
/// `Memory` if a growth was refused.
pub fn warnings(alloc: Global, text: &[u8]) -> Result<Vec<Warning>, Memory>
    ensures { IfOk result (λ told. told.items ≡ warnings text.now) }
{
    match read_game(alloc, text) {
        Ok(game) => {
            let told = warnings_of_game(alloc, text, &game)?;
            Ok(told)
        }
        Err(Refusal::Refused(fault)) => {
            // It is told as one.
            let _ = fault;
            Ok(Vec::new(alloc))
        }
        Err(Refusal::Memory) => Err(Memory),
    }
}
