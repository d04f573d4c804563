//! A device above another.

ghost use Rattle.std.specs.Prelude.{◌≡◌, ◌+◌, ◌<◌, ◌≤◌, ◌||◌, ◌++◌, ◌∷◌, ℕ, [], Some, true, false, length, take};
ghost use Rattle.std.specs.Prelude.{IfOk, OnOk, OnErr, IsErr};
ghost use Rattle.std.proofs.Props.{props};
ghost use Rattle.ps_devices.specs.Devices.{Grows, most_calls};
ghost use Rattle.ps_view.specs.Beginnings.{Beginning, mark};
ghost use Rattle.ps_view.specs.Pieces.{output_of, piece_of};
ghost use Rattle.ps_view.specs.Shown.{IsShown, IsShownInPart, are_unsized, view_then};
ghost use Rattle.ps_view.specs.ToldGames.{known_of};
ghost use Rattle.ps_view.specs.Views.{piece_step};

use crate::lines::Line;
use crate::pasts::Past;
use crate::sizes::Size;
use crate::tellers::SizeTeller;
use crate::viewed_games::ViewedGame;
use crate::views::TerminalView;
use ps_devices::{ByteWriter, Failed, write_whole};
use ps_model::Memory;
use std::alloc::Global;

/// A writer that takes the output of a run, in whatever pieces, and hands on to another what a terminal is to show,
/// whose size it asks for before each piece. It tells the bytes that it took, behind a mark of what it began with: so
/// whoever lends it out knows afterwards that it is the view that it was. What the writer below has is the view of the
/// pieces that were taken, by the sizes that were told before them.
#[derive(Drop)]
pub struct Viewed<'w, W: ByteWriter, S: SizeTeller> {
    writer: &'w mut W,
    sizes: S,
    view: TerminalView,
    orders: Line,
    past: Past,
    wants_memory: bool,
    is_worn: bool,
    calls: u64,
    empty_calls: u64,
    ghost empty: { empty_calls ≤ calls },
    ghost same: { writer.ghost_name ≡ past.begun.reference },
    ghost silent: { S.is_silent sizes ≡ past.begun.keeps_size },
    ghost one_size: { past.begun.keeps_size ≡ true → are_unsized past.pieces ≡ true },
    ghost goes_on: { ((W.state writer.now).has_failed || (wants_memory || is_worn)) ≡ false
        → view ≡ view_then past.begun past.pieces },
    ghost shown: { (W.state writer.now).has_failed ≡ false
        → IsShown past.begun past.pieces (W.state writer.now).contents } by { Prim.hlevel props },
    ghost in_part: { IsShownInPart past.begun past.pieces (W.state writer.now).contents },
}

impl<'w, W: ByteWriter, S: SizeTeller> Viewed<'w, W, S> {
    /// A view of a game for a terminal of that size, above a writer, and beside what tells other sizes. Nothing is
    /// written yet.
    pub fn new(
        alloc: Global,
        game: ViewedGame,
        size: Size,
        sizes: S,
        writer: &'w mut W,
    ) -> Viewed<'w, W, S>
        ensures same_reference { result.writer.ghost_name ≡ writer.entry.ghost_name }
        ensures writer { result.writer.now ≡ writer.old }
        ensures sizes { result.sizes ≡ sizes }
        ensures game { result.past.begun.game ≡ known_of game }
        ensures size { result.past.begun.size ≡ size }
        ensures keeps_size { result.past.begun.keeps_size ≡ S.is_silent sizes }
        ensures before { result.past.begun.before ≡ (W.state writer.old).contents }
        ensures pieces { result.past.pieces ≡ [] }
        ensures well { (result.wants_memory || result.is_worn) ≡ false }
        ensures calls { result.calls ≡ 0 }
        ensures empty_calls { result.empty_calls ≡ 0 }
    {
        Viewed::begin(alloc, game, size, sizes, writer)
    }

    /// The same, with what proofs alone know of the beginning.
    fn begin(
        alloc: Global,
        game: ViewedGame,
        size: Size,
        sizes: S,
        writer: &'w mut W,
    ) -> Viewed<'w, W, S>
        ghost begun: { Beginning }
        requires game { begun.game ≡ known_of game }
        requires size { begun.size ≡ size }
        requires keeps_size { begun.keeps_size ≡ S.is_silent sizes }
        requires before { begun.before ≡ (W.state writer.old).contents }
        requires reference { begun.reference ≡ writer.ghost_name }
        ensures same_reference { result.writer.ghost_name ≡ writer.entry.ghost_name }
        ensures writer { result.writer.now ≡ writer.old }
        ensures sizes { result.sizes ≡ sizes }
        ensures begun { result.past.begun ≡ begun }
        ensures pieces { result.past.pieces ≡ [] }
        ensures well { (result.wants_memory || result.is_worn) ≡ false }
        ensures calls { result.calls ≡ 0 }
        ensures empty_calls { result.empty_calls ≡ 0 }
    {
        Viewed {
            view: TerminalView::new(alloc, game, size),
            orders: Line::new(alloc),
            past: Past::new(),
            writer,
            sizes,
            wants_memory: false,
            is_worn: false,
            calls: 0,
            empty_calls: 0,
        }
    }

    /// Whether it has failed as a growth was refused; where it has failed and this is false, the writer below has, or
    /// the calls can't be counted any more.
    pub fn wants_memory(&self) -> bool
        ensures { result ≡ self.now.wants_memory }
    {
        self.wants_memory
    }

    /// Ends the view, and gives the writer back.
    pub fn into_writer(self) -> &'w mut W
        ensures same_reference { result.ghost_name ≡ self.entry.writer.ghost_name }
        ensures writer { result.now ≡ self.entry.writer.now }
    {
        let Viewed {
            writer,
            sizes: _sizes,
            view: _view,
            orders: _orders,
            past: _past,
            wants_memory: _wants_memory,
            is_worn: _is_worn,
            calls: _calls,
            empty_calls: _empty_calls,
        } = self;
        writer
    }

    /// Counts one more call, of a piece with bytes or without. It fails where the count can't grow.
    fn count_call(&mut self, is_empty: bool) -> Result<(), Failed>
        ensures same_reference { self.new.writer.ghost_name ≡ self.old.writer.ghost_name }
        ensures writer { self.new.writer.now ≡ self.old.writer.now }
        ensures sizes { self.new.sizes ≡ self.old.sizes }
        ensures view { self.new.view ≡ self.old.view }
        ensures past { self.new.past ≡ self.old.past }
        ensures memory { self.new.wants_memory ≡ self.old.wants_memory }
        ensures well { OnOk result (self.new.is_worn ≡ self.old.is_worn) }
        ensures told { OnErr result (self.new.is_worn ≡ true) }
        ensures counted { OnOk result (self.new.calls ≡ self.old.calls + 1) }
        ensures room { OnOk result (self.old.calls < most_calls) }
        ensures worn { OnErr result (most_calls ≤ self.old.calls) }
        ensures held { OnErr result (self.new.calls ≡ self.old.calls) }
        ensures empty { OnOk result (is_empty ≡ true → self.new.empty_calls ≡ self.old.empty_calls + 1) }
        ensures some { OnOk result (is_empty ≡ false → self.new.empty_calls ≡ self.old.empty_calls) }
        ensures none { OnErr result (self.new.empty_calls ≡ self.old.empty_calls) }
    {
        if self.calls == u64::MAX {
            self.is_worn = true;
            return Err(Failed);
        }
        self.calls += 1;
        if is_empty {
            self.empty_calls += 1;
        }
        Ok(())
    }

    /// Asks for the size of the terminal, takes all of `bytes`, and hands on what the view makes of both, which may be
    /// nothing: then the writer below isn't called.
    ///
    /// # Errors
    ///
    /// `Failed` where a growth is refused, with the writer not called; where that writer fails, which has a front of
    /// what was to be handed on then; and behind the `u64::MAX`th call. No byte is taken then.
    pub(super) fn take(&mut self, bytes: &[u8]) -> Result<(), Failed>
        requires well { ((W.state self.old.writer.now).has_failed || (self.old.wants_memory || self.old.is_worn))
            ≡ false }
        ensures taken { OnOk result (output_of self.new.past.pieces ≡ output_of self.old.past.pieces ++ bytes.now) }
        ensures pieces { OnOk result (self.new.past.pieces
            ≡ self.old.past.pieces ++ piece_of (S.told self.new.sizes) bytes.now ∷ []) }
        ensures begun { self.new.past.begun ≡ self.old.past.begun }
        ensures kept { OnErr result (self.new.past.pieces ≡ self.old.past.pieces) }
        ensures shown { OnOk result (Grows (W.state self.old.writer.now).contents
            (W.state self.new.writer.now).contents (piece_step self.old.view (S.told self.new.sizes) bytes.now).bytes) }
        ensures view { OnOk result
            (self.new.view ≡ (piece_step self.old.view (S.told self.new.sizes) bytes.now).view) }
        ensures front { OnErr result ((count : ℕ) × Grows (W.state self.old.writer.now).contents
            (W.state self.new.writer.now).contents
            (take count (piece_step self.old.view (S.told self.new.sizes) bytes.now).bytes)) }
        ensures unwritten { OnErr result
            (self.new.wants_memory ≡ true → self.new.writer.now ≡ self.old.writer.now) }
        ensures well { OnOk result (((W.state self.new.writer.now).has_failed
            || (self.new.wants_memory || self.new.is_worn)) ≡ false) }
        ensures told { OnErr result (((W.state self.new.writer.now).has_failed
            || (self.new.wants_memory || self.new.is_worn)) ≡ true) }
        ensures counted { self.old.calls < most_calls → self.new.calls ≡ self.old.calls + 1 }
        ensures worn { most_calls ≤ self.old.calls → IsErr result }
        ensures held { most_calls ≤ self.old.calls → self.new.calls ≡ self.old.calls }
        ensures empty { self.old.calls < most_calls → length bytes.now ≡ 0
            → self.new.empty_calls ≡ self.old.empty_calls + 1 }
        ensures some { 0 < length bytes.now → self.new.empty_calls ≡ self.old.empty_calls }
        ensures none { most_calls ≤ self.old.calls → self.new.empty_calls ≡ self.old.empty_calls }
    {
        self.count_call(bytes.is_empty())?;
        let told = self.sizes.size_now();
        if orders_for(&mut self.view, told, bytes, &mut self.orders).is_err() {
            self.wants_memory = true;
            return Err(Failed);
        }
        write_whole(self.orders.bytes(), &mut *self.writer)?;
        self.past.note(&told, bytes);
        Ok(())
    }
}

/// Gathers what a view hands on for a size, if one is told, and for bytes of the output behind it.
fn orders_for(
    view: &mut TerminalView,
    told: Option<Size>,
    bytes: &[u8],
    orders: &mut Line,
) -> Result<(), Memory>
    ensures view { OnOk result (view.new ≡ (piece_step view.old told bytes.now).view) }
    ensures orders { OnOk result (orders.new ≡ (piece_step view.old told bytes.now).bytes) }
{
    orders.clear();
    view.take_piece(told, bytes, orders)
}

impl<'w, W: ByteWriter, S: SizeTeller> ByteWriter for Viewed<'w, W, S> {
    ghost state = { λ device. record {
      contents = Some (mark device.past.begun ++ output_of device.past.pieces);
      has_failed = (W.state device.writer.now).has_failed || (device.wants_memory || device.is_worn);
      calls = device.calls;
      empty_calls = device.empty_calls;
      short_calls = 0;
    } };

    /// Takes all of `bytes`, or fails.
    fn write_some(&mut self, bytes: &[u8]) -> Result<usize, Failed> {
        self.take(bytes)?;
        Ok(bytes.len())
    }
}
