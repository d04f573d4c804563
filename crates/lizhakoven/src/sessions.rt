//! Sessions: their start, their copies, their keys, what these lead to, and their end.

ghost use Rattle.std.specs.Prelude.{◌≡◌, None};
ghost use Rattle.lizhakoven.specs.declared.statuses.Status.{Status as TheStatus};
ghost use Rattle.lizhakoven.specs.Calls.{IsCopied, IsCopy, IsGiven, IsLook, IsStart, IsStarted, IsText};
ghost use Rattle.lizhakoven.specs.Statuses.{number_of_status};

use crate::game_handle::GameHandle;
use crate::handle::SessionHandle;
use crate::held::HeldSession;
use crate::places::Place;
use crate::statuses::Status;
use crate::telling::{bytes_from, write_bytes};
use ps_model::Memory;
use std::alloc::Global;

/// A session that begins at a level of what a handle owns, or the status of a start that came to none.
fn start_of(alloc: Global, game: &mut GameHandle, level: usize) -> Result<Box<HeldSession>, Status>
    ensures same { game.new.value ≡ game.old.value }
    ensures start { IsStart game.old.value level result }
{
    let Some(held) = game.take(alloc) else {
        return Err(Status::Closed);
    };
    let made = held.begin(alloc, level);
    game.put(held);
    let session = match made {
        Ok(session) => session,
        Err(status) => return Err(status),
    };
    match Box::new(alloc, session) {
        Ok(session) => Ok(session),
        Err(_) => Err(Status::Memory),
    }
}

/// Starts a session at the level of that number in a game: levels alone are counted, from 1. Answers the number of a
/// status. `Done`: the handle owns the session, in place of what it owned, which is ended. Else the handle is as
/// before. The game stays open, and may be closed before the session ends.
#[unsafe(no_mangle)]
pub extern "C" fn lzk_start(
    alloc: Global,
    game: &mut GameHandle,
    level: usize,
    session: &mut SessionHandle,
) -> u32
    ensures same { game.new.value ≡ game.old.value }
    ensures started { (status : TheStatus) × (result ≡ number_of_status status)
        × IsStarted game.old.value level session.old.value session.new.value status }
{
    match start_of(alloc, game, level) {
        Ok(started) => {
            let _ = session.take(alloc);
            session.put(started);
            Status::Done.number()
        }
        Err(status) => status.number(),
    }
}

/// A copy of what a handle owns, which owns it still, or the status of a copy that came to none.
fn copy_of(alloc: Global, session: &mut SessionHandle) -> Result<Box<HeldSession>, Status>
    ensures same { session.new.value ≡ session.old.value }
    ensures copy { IsCopy session.old.value result }
{
    let Some(mut held) = session.take(alloc) else {
        return Err(Status::Closed);
    };
    let made = held.copied(alloc);
    session.put(held);
    let Ok(copy) = made else {
        return Err(Status::Memory);
    };
    match Box::new(alloc, copy) {
        Ok(copy) => Ok(copy),
        Err(_) => Err(Status::Memory),
    }
}

/// Copies a session: answers the number of a status. `Done`: the other handle owns a session that is where this one is,
/// in place of what it owned, which is ended. `Memory` and `Closed`: the other handle is as before.
#[unsafe(no_mangle)]
pub extern "C" fn lzk_copy(
    alloc: Global,
    session: &mut SessionHandle,
    copy: &mut SessionHandle,
) -> u32
    ensures same { session.new.value ≡ session.old.value }
    ensures copied { (status : TheStatus) × (result ≡ number_of_status status)
        × IsCopied session.old.value copy.old.value copy.new.value status }
{
    match copy_of(alloc, session) {
        Ok(copied) => {
            let _ = copy.take(alloc);
            copy.put(copied);
            Status::Done.number()
        }
        Err(status) => status.number(),
    }
}

/// Gives keys to what a handle owns.
fn give_keys(alloc: Global, session: &mut SessionHandle, keys: &[u8]) -> Status
    ensures { IsGiven keys.now session.old.value session.new.value result }
{
    let Some(mut held) = session.take(alloc) else {
        return Status::Closed;
    };
    let given = held.add_keys(keys);
    session.put(held);
    match given {
        Ok(()) => Status::Done,
        Err(Memory) => Status::Memory,
    }
}

/// Gives keys to a session, which come after those that it has: answers the number of a status. `Done`: the session has
/// them. `Memory`: the session is as before, and the same keys may be given again. `Closed`: the handle is closed.
#[unsafe(no_mangle)]
pub extern "C" fn lzk_keys(alloc: Global, session: &mut SessionHandle, keys: &[u8]) -> u32
    ensures { (status : TheStatus) × (result ≡ number_of_status status)
        × IsGiven keys.now session.old.value session.new.value status }
{
    give_keys(alloc, session, keys).number()
}

/// Tells where what a handle owns is. The place is written anew.
fn look_in(
    alloc: Global,
    session: &mut SessionHandle,
    cells: &mut [u32],
    place: &mut Place,
) -> Status
    ensures same { session.new.value ≡ session.old.value }
    ensures looked { IsLook cells.old cells.new session.old.value place.new result }
{
    *place = Place::nowhere(0);
    let Some(mut held) = session.take(alloc) else {
        return Status::Closed;
    };
    let looked = held.look(alloc, cells);
    session.put(held);
    match looked {
        Ok(seen) => {
            *place = seen.place;
            Status::of_told(seen.is_told)
        }
        Err(Memory) => Status::Memory,
    }
}

/// Tells where a session is: answers the number of a status. The place is written anew, whatever stood there.
///
/// `Done`: the place is told, and the front of `cells` has what stands in each cell of its level: one number for each
/// collision layer, the lowest first. The cells come column by column from the left, each column from the top. An
/// object has its number, from 0 in the order of OBJECTS; `NOTHING` stands where there is none. In no level there are
/// no cells. `NoRoom`: the place is told, but the cells have too little room, and stay as they were. `Memory`: the
/// cells are as before. `Closed`: the handle is closed. The session is as it was, whatever the status.
#[unsafe(no_mangle)]
pub extern "C" fn lzk_look(
    alloc: Global,
    session: &mut SessionHandle,
    cells: &mut [u32],
    place: &mut Place,
) -> u32
    ensures same { session.new.value ≡ session.old.value }
    ensures looked { (status : TheStatus) × (result ≡ number_of_status status)
        × IsLook cells.old cells.new session.old.value place.new status }
{
    look_in(alloc, session, cells, place).number()
}

/// Writes what is written by what a handle owns, from a byte on. The length is written anew.
fn text_in(
    alloc: Global,
    session: &mut SessionHandle,
    from: usize,
    output: &mut [u8],
    length: &mut usize,
) -> Status
    ensures same { session.new.value ≡ session.old.value }
    ensures told { IsText from output.old output.new session.old.value length.new result }
{
    *length = 0;
    let Some(held) = session.take(alloc) else {
        return Status::Closed;
    };
    let made = held.text(alloc);
    session.put(held);
    match made {
        Ok(text) => {
            let left = bytes_from(text.bytes(), from);
            *length = left.len();
            Status::of_told(write_bytes(left, output))
        }
        Err(Memory) => Status::Memory,
    }
}

/// Writes what a session has written since its start, from a byte on, to the front of `output`: answers the number of a
/// status. The length is written anew, whatever stood there.
///
/// `Done`: `length` bytes are written, and the rest of `output` is as it was. `NoRoom`: there are `length` bytes to
/// write, which is more than there is room for; `output` is as it was. `Memory`: so it is, and the length is 0.
/// `Closed`: the handle is closed. The session is as it was, whatever the status.
#[unsafe(no_mangle)]
pub extern "C" fn lzk_text(
    alloc: Global,
    session: &mut SessionHandle,
    from: usize,
    output: &mut [u8],
    length: &mut usize,
) -> u32
    ensures same { session.new.value ≡ session.old.value }
    ensures told { (status : TheStatus) × (result ≡ number_of_status status)
        × IsText from output.old output.new session.old.value length.new status }
{
    text_in(alloc, session, from, output, length).number()
}

/// Ends a session: its handle is closed, and its memory is free. Of a closed handle nothing is done.
#[unsafe(no_mangle)]
pub extern "C" fn lzk_end(alloc: Global, session: &mut SessionHandle)
    ensures { session.new.value ≡ None }
{
    drop(session.take(alloc));
}
