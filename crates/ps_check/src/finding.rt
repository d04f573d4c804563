//! What a check finds of a text.

ghost use Rattle.std.specs.Prelude.{◌≡◌, IfOk, is_some, string_bytes};
ghost use Rattle.ps_model.specs.game.Games.{faults, game};
ghost use Rattle.ps_model.specs.text.Faults.{first_fault};
ghost use Rattle.ps_check.specs.Checks.{check_line};

use crate::sizes::size_of;
use ps_game::read_game;
use ps_model::{Fault, Memory, Refusal};
use std::alloc::Global;

/// Whether a text is a game, and the line that tells of it.
#[derive(Drop)]
pub struct Finding {
    pub accepted: bool,
    pub line: String,
}

/// What a check finds of a text.
pub fn finding_of(alloc: Global, text: &[u8]) -> Result<Finding, Memory>
    ensures accepted { IfOk result (λ finding. finding.accepted ≡ is_some (game text.now)) }
    ensures line { IfOk result (λ finding. string_bytes finding.line ≡ check_line text.now) }
{
    match read_game(alloc, text) {
        Ok(game) => {
            let size = size_of(&game);
            let line = format!(in alloc; "{size}\n")?;
            Ok(Finding {
                accepted: true,
                line,
            })
        }
        Err(Refusal::Refused(fault)) => {
            let line = format!(in alloc; "{fault}\n")?;
            Ok(Finding {
                accepted: false,
                line,
            })
        }
        Err(Refusal::Memory) => Err(Memory),
    }
}

/// The first fault of a text, if it has one.
///
/// # Errors
///
/// `Memory`, where a growth was refused.
pub fn first_fault(alloc: Global, text: &[u8]) -> Result<Option<Fault>, Memory>
    ensures { IfOk result (λ found. found ≡ first_fault (faults text.now)) }
{
    match read_game(alloc, text) {
        Ok(_) => Ok(None),
        Err(Refusal::Refused(fault)) => Ok(Some(fault)),
        Err(Refusal::Memory) => Err(Memory),
    }
}
