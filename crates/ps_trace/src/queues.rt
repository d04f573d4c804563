//! Queues of commands: that of a turn, which has its message, and that of a run, whose message is lent.

use ps_engine::LentQueue;
use ps_model::Memory;
use ps_text::Text;
use ps_turn::Queue;
use std::alloc::Global;

/// The commands of a turn's queue, its message lent.
pub fn lent<'q>(queue: &'q Queue) -> LentQueue<'q> {
    LentQueue {
        cancel: queue.cancel,
        restart: queue.restart,
        again: queue.again,
        checkpoint: queue.checkpoint,
        win: queue.win,
        message: queue.message.as_ref(),
    }
}

/// A copy of a message, if there is one. `Memory` if there is no room for it.
fn message_copied(alloc: Global, message: Option<&Text>) -> Result<Option<Text>, Memory> {
    let Some(text) = message else {
        return Ok(None);
    };
    let copy = Text::from_str(alloc, text.as_str())?;
    Ok(Some(copy))
}

/// A turn's queue of the same commands, with a message of its own. `Memory` if there is no room for the message.
pub fn owned(alloc: Global, queue: &LentQueue<'_>) -> Result<Queue, Memory> {
    let message = message_copied(alloc, queue.message)?;
    Ok(Queue {
        cancel: queue.cancel,
        restart: queue.restart,
        again: queue.again,
        checkpoint: queue.checkpoint,
        win: queue.win,
        message,
    })
}
