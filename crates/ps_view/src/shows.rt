//! Outputs that are shown in a view.

ghost use Rattle.std.specs.Prelude.{◌≡◌, ◌+◌, ◌||◌, [], false, true, OnOk};
ghost use Rattle.ps_devices.specs.Devices.{Grows, IsSpent, Loses};
ghost use Rattle.ps_view.specs.Pieces.{output_of};
ghost use Rattle.ps_view.specs.Shown.{IsShown, IsShownInPart};
ghost use Rattle.ps_view.specs.Views.{view_of};

use crate::tellers::SizeTeller;
use crate::viewed::Viewed;
use ps_devices::{ByteReader, ByteWriter};
use ps_model::CALL_LIMIT;

/// Why an output wasn't shown to its end.
#[derive(Clone, Copy)]
pub enum ShowFault {
    /// The reader failed, or had more to give after `u64::MAX` calls.
    Read,
    /// The view has failed.
    Write,
}

/// Shows the output that a reader gives, to its end: a view that has taken nothing takes all of it, in the pieces in
/// which it comes. Behind the end nothing more is asked for.
///
/// # Errors
///
/// `Read` where the reader failed, and `Write` where the view did. The writer below has the view of the pieces that the
/// view took, and perhaps a front of that of one more.
pub fn show_all<I: ByteReader, W: ByteWriter, S: SizeTeller>(
    input: &mut I,
    view: &mut Viewed<'_, W, S>,
) -> Result<(), ShowFault>
    requires heard { (I.state input.old).has_failed ≡ false }
    requires well { ((W.state view.old.writer.now).has_failed || (view.old.wants_memory || view.old.is_worn)) ≡ false }
    requires fresh { view.old.past.pieces ≡ [] }
    ensures same_reference { view.new.writer.ghost_name ≡ view.old.writer.ghost_name }
    ensures begun { view.new.past.begun ≡ view.old.past.begun }
    ensures given { OnOk result
        (Loses (I.state input.old).remaining (I.state input.new).remaining (output_of view.new.past.pieces)) }
    ensures ended { OnOk result (IsSpent (I.state input.new).remaining) }
    ensures asked_once { OnOk result ((I.state input.new).empty_calls ≡ (I.state input.old).empty_calls + 1) }
    ensures well { OnOk result
        (((W.state view.new.writer.now).has_failed || (view.new.wants_memory || view.new.is_worn)) ≡ false) }
    ensures shown { (W.state view.new.writer.now).has_failed ≡ false
        → IsShown view.old.past.begun view.new.past.pieces (W.state view.new.writer.now).contents }
    ensures as_whole { view.old.past.begun.keeps_size ≡ true → (W.state view.new.writer.now).has_failed ≡ false
        → Grows view.old.past.begun.before (W.state view.new.writer.now).contents
        (view_of view.old.past.begun.game view.old.past.begun.size (output_of view.new.past.pieces)) }
    ensures in_part { IsShownInPart view.old.past.begun view.new.past.pieces (W.state view.new.writer.now).contents }
{
    let mut piece = [0u8; CALL_LIMIT];
    for _call in 0..u64::MAX {
        let count = input.read_some(&mut piece).map_err(|_| ShowFault::Read)?;
        if count == 0 {
            return Ok(());
        }
        view.take(&piece[..count]).map_err(|_| ShowFault::Write)?;
    }
    Err(ShowFault::Read)
}
