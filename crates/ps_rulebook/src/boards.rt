//! Boards on which compiled programs play.

ghost use Rattle.ps_rulebook.specs.PlayedGames.{GivesRoom};

use ps_board::ColumnWords;
use ps_engine::{ListBoard, Scan};
use ps_rows::RowBoard;

/// A kind of board that gives every object room on its own layer.
pub trait GameBoard: Scan {
    /// By the table that its boards have for layers, each object has room on its layer.
    ghost room: { GivesRoom Self.table_for };
}

impl GameBoard for ListBoard {
    ghost use Rattle.std.specs.Prelude.{refl};

    ghost room = { λ layers object layer own. refl };
}

impl<W: ColumnWords> GameBoard for RowBoard<W> {
    ghost use Rattle.std.specs.Prelude.{refl};
    ghost use Rattle.ps_board.specs.Rooms.{layer_numbers};
    ghost use Rattle.ps_rows.proofs.Whole.{have_room};

    ghost room = { λ layers. have_room (layer_numbers layers) layers refl };
}

/// The kind of board gives every object room on its own layer.
pub fn gives_room<B: GameBoard>()
    ensures { GivesRoom B.table_for }
{}
