//! Games: their opening, the names of their objects, and their closing.

ghost use Rattle.std.specs.Prelude.{◌≡◌, None};
ghost use Rattle.lizhakoven.specs.declared.statuses.Status.{Status as TheStatus};
ghost use Rattle.lizhakoven.specs.GameCalls.{IsNamed, IsOpened, IsOpening};
ghost use Rattle.lizhakoven.specs.Statuses.{number_of_status};

use crate::faults::TextFault;
use crate::game_handle::GameHandle;
use crate::held_game::HeldGame;
use crate::statuses::Status;
use ps_model::Refusal;
use std::alloc::Global;

/// The game of a text, or the status of an opening that came to none. The fault is written anew.
fn opening_of(alloc: Global, text: &[u8], fault: &mut TextFault) -> Result<Box<HeldGame>, Status>
    ensures { IsOpening text.now fault.new result }
{
    *fault = TextFault::none();
    let held = match HeldGame::read(alloc, text) {
        Ok(held) => held,
        Err(Refusal::Refused(first)) => {
            *fault = TextFault::of(first);
            return Err(Status::Refused);
        }
        Err(Refusal::Memory) => return Err(Status::Memory),
    };
    match Box::new(alloc, held) {
        Ok(game) => Ok(game),
        Err(_) => Err(Status::Memory),
    }
}

/// Opens the game of a text: answers the number of a status. `Done`: the handle owns the game, in place of what it
/// owned, which is closed. Else the handle is as before. The fault is written anew, whatever stood there.
#[unsafe(no_mangle)]
pub extern "C" fn lzk_open(
    alloc: Global,
    text: &[u8],
    game: &mut GameHandle,
    fault: &mut TextFault,
) -> u32
    ensures { (status : TheStatus) × (result ≡ number_of_status status)
        × IsOpened text.now game.old.value game.new.value fault.new status }
{
    match opening_of(alloc, text, fault) {
        Ok(opened) => {
            let _ = game.take(alloc);
            game.put(opened);
            Status::Done.number()
        }
        Err(status) => status.number(),
    }
}

/// Writes how an object of what a handle owns is called. The length is written anew.
fn name_in(
    alloc: Global,
    game: &mut GameHandle,
    object: u32,
    name: &mut [u8],
    length: &mut usize,
) -> Status
    ensures same { game.new.value ≡ game.old.value }
    ensures named { IsNamed game.old.value object name.old name.new length.new result }
{
    *length = 0;
    let Some(held) = game.take(alloc) else {
        return Status::Closed;
    };
    let status = held.tell_name(alloc, object, name, length);
    game.put(held);
    status
}

/// Writes how an object of a game is called, as the text of the game writes it, to the front of `name`. Objects are
/// numbered from 0 in the order of OBJECTS. Answers the number of a status. The length is written anew, whatever stood
/// there.
///
/// `Done`: `length` bytes are written, and the rest of `name` is as it was. `NoRoom`: the name has `length` bytes,
/// which is more than there is room for; `name` is as it was. `NoObject`: the game has no object of that number.
/// `Memory`, `Closed`: the handle is closed. In these three `name` is as it was, and the length is 0. The game stays
/// open.
#[unsafe(no_mangle)]
pub extern "C" fn lzk_object_name(
    alloc: Global,
    game: &mut GameHandle,
    object: u32,
    name: &mut [u8],
    length: &mut usize,
) -> u32
    ensures same { game.new.value ≡ game.old.value }
    ensures named { (status : TheStatus) × (result ≡ number_of_status status)
        × IsNamed game.old.value object name.old name.new length.new status }
{
    name_in(alloc, game, object, name, length).number()
}

/// Closes a game: its handle is closed. Its memory is free once its sessions have ended. Of a closed handle nothing is
/// done.
#[unsafe(no_mangle)]
pub extern "C" fn lzk_close(alloc: Global, game: &mut GameHandle)
    ensures { game.new.value ≡ None }
{
    drop(game.take(alloc));
}
