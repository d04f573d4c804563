//! Games that are played in a view.

ghost use Rattle.std.specs.Prelude.{◌≡◌, ◌||◌, true, false, OnOk};
ghost use Rattle.ps_model.specs.game.Headline.{IsTrueOfText, RunsRightly};
ghost use Rattle.ps_model.specs.game.LevelRuns.{IsTrueOfLevel, RunsRightlyFromLevel};
ghost use Rattle.ps_devices.specs.Answers.{answer_of, level_answer_of};
ghost use Rattle.ps_devices.specs.Devices.{Grows};
ghost use Rattle.ps_view.specs.Pieces.{output_of};
ghost use Rattle.ps_view.specs.Takers.{taker_of};
ghost use Rattle.ps_view.specs.Shown.{IsShown, IsShownInPart};
ghost use Rattle.ps_view.specs.Views.{view_of};

use crate::tellers::SizeTeller;
use crate::viewed::Viewed;
use ps_devices::{ByteReader, ByteWriter, LevelFault, Player, RunFault};
use ps_model::Ending;
use std::alloc::Global;

/// Plays the game whose text is `text` in a view: the run is what the player's contract says, and wrote the pieces that
/// the view took. The writer below has the view of them.
///
/// # Errors
///
/// Those of the player, with `Write` where the view has failed. What the writer below has then is the view of the
/// pieces that were taken, and perhaps a front of that of one more.
pub fn play_viewed<P: Player, I: ByteReader, W: ByteWriter, S: SizeTeller>(
    alloc: Global,
    player: &P,
    text: &[u8],
    keys: &mut I,
    view: &mut Viewed<'_, W, S>,
) -> Result<Ending, RunFault>
    requires heard { (I.state keys.old).has_failed ≡ false }
    requires well { ((W.state view.old.writer.now).has_failed || (view.old.wants_memory || view.old.is_worn)) ≡ false }
    ensures same_reference { view.new.writer.ghost_name ≡ view.old.writer.ghost_name }
    ensures rightly { RunsRightly text.now (I.state keys.old) (I.state keys.new)
        (taker_of view.old.past.pieces false view.old.calls view.old.empty_calls)
        (taker_of view.new.past.pieces
        ((W.state view.new.writer.now).has_failed || (view.new.wants_memory || view.new.is_worn))
        view.new.calls view.new.empty_calls) (answer_of result) }
    ensures true_of_text { IsTrueOfText text.now (answer_of result) }
    ensures well { OnOk result
        (((W.state view.new.writer.now).has_failed || (view.new.wants_memory || view.new.is_worn)) ≡ false) }
    ensures shown { (W.state view.new.writer.now).has_failed ≡ false
        → IsShown view.old.past.begun view.new.past.pieces (W.state view.new.writer.now).contents }
    ensures as_whole { view.old.past.begun.keeps_size ≡ true → (W.state view.new.writer.now).has_failed ≡ false
        → Grows view.old.past.begun.before (W.state view.new.writer.now).contents
        (view_of view.old.past.begun.game view.old.past.begun.size (output_of view.new.past.pieces)) }
    ensures in_part { IsShownInPart view.old.past.begun view.new.past.pieces (W.state view.new.writer.now).contents }
{
    player.play(alloc, text, keys, view)
}

/// The same from the level of that number on, as [`Player::play_from_level`] plays it.
///
/// # Errors
///
/// Those of the player, as for [`play_viewed`].
pub fn play_viewed_from_level<P: Player, I: ByteReader, W: ByteWriter, S: SizeTeller>(
    alloc: Global,
    player: &P,
    text: &[u8],
    level: usize,
    keys: &mut I,
    view: &mut Viewed<'_, W, S>,
) -> Result<Ending, LevelFault>
    requires heard { (I.state keys.old).has_failed ≡ false }
    requires well { ((W.state view.old.writer.now).has_failed || (view.old.wants_memory || view.old.is_worn)) ≡ false }
    ensures same_reference { view.new.writer.ghost_name ≡ view.old.writer.ghost_name }
    ensures rightly { RunsRightlyFromLevel text.now level (I.state keys.old) (I.state keys.new)
        (taker_of view.old.past.pieces false view.old.calls view.old.empty_calls)
        (taker_of view.new.past.pieces
        ((W.state view.new.writer.now).has_failed || (view.new.wants_memory || view.new.is_worn))
        view.new.calls view.new.empty_calls) (level_answer_of result) }
    ensures true_of_level { IsTrueOfLevel text.now level (level_answer_of result) }
    ensures well { OnOk result
        (((W.state view.new.writer.now).has_failed || (view.new.wants_memory || view.new.is_worn)) ≡ false) }
    ensures shown { (W.state view.new.writer.now).has_failed ≡ false
        → IsShown view.old.past.begun view.new.past.pieces (W.state view.new.writer.now).contents }
    ensures as_whole { view.old.past.begun.keeps_size ≡ true → (W.state view.new.writer.now).has_failed ≡ false
        → Grows view.old.past.begun.before (W.state view.new.writer.now).contents
        (view_of view.old.past.begun.game view.old.past.begun.size (output_of view.new.past.pieces)) }
    ensures in_part { IsShownInPart view.old.past.begun view.new.past.pieces (W.state view.new.writer.now).contents }
{
    player.play_from_level(alloc, text, level, keys, view)
}
