//! The check of a text.

ghost use Rattle.std.specs.Prelude.{◌≡◌};
ghost use Rattle.lizhakoven.specs.declared.statuses.Status.{Status as TheStatus};
ghost use Rattle.lizhakoven.specs.Findings.{IsFound};
ghost use Rattle.lizhakoven.specs.Statuses.{number_of_status};

use crate::faults::TextFault;
use crate::sizes::GameSize;
use crate::statuses::Status;
use ps_game::read_game;
use ps_model::Refusal;
use std::alloc::Global;

/// What a check found of a text: the size of its game, or its first fault.
#[repr(C)]
#[derive(Clone, Copy)]
pub struct Finding {
    /// Zeros, unless the text is a game.
    pub size: GameSize,
    /// Zeros, unless the text has a fault.
    pub fault: TextFault,
}

/// Checks a text, and writes a finding anew. The status is `Done` of a game, `Refused` of any other text, or `Memory`.
fn find(alloc: Global, text: &[u8], finding: &mut Finding) -> Status
    ensures { IsFound text.now finding.new result }
{
    let (size, fault) = (GameSize::none(), TextFault::none());
    match read_game(alloc, text) {
        Ok(game) => {
            let size = GameSize::of(&game);
            *finding = Finding { size, fault };
            Status::Done
        }
        Err(Refusal::Refused(first)) => {
            let fault = TextFault::of(first);
            *finding = Finding { size, fault };
            Status::Refused
        }
        Err(Refusal::Memory) => {
            *finding = Finding { size, fault };
            Status::Memory
        }
    }
}

/// Whether a text is a game: answers the number of a status, and writes a finding anew, whatever stood there. Of a game
/// the status is `Done`, and the finding has its size. Of any other text it is `Refused`, and the finding has its first
/// fault. It is `Memory` where a growth was refused, and nothing is found.
#[unsafe(no_mangle)]
pub extern "C" fn lzk_check(alloc: Global, text: &[u8], finding: &mut Finding) -> u32
    ensures { (status : TheStatus) × (result ≡ number_of_status status) × IsFound text.now finding.new status }
{
    let status = find(alloc, text, finding);
    status.number()
}
