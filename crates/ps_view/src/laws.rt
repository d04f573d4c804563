//! Laws of views.

ghost use Rattle.ps_view.specs.Pieces.{OneSizeIsAsTheWhole, PiecesAreAsTheWhole, PiecesLeaveTheSame};
ghost use Rattle.ps_view.specs.Bounds.{RowsFit, ScreensAreHarmless, ScreensFit, ScreensOfPiecesAreHarmless};
ghost use Rattle.ps_view.specs.Sight.{PlayersAreDrawn, PlayersAreInSight};

/// An output that comes in pieces has the view of the whole, however it is cut.
pub fn pieces_are_as_the_whole()
    ensures handed_on { PiecesAreAsTheWhole }
    ensures view { PiecesLeaveTheSame }
{}

/// As long as no other size is told, sizes make no difference: what is handed on is the view of the whole output.
pub fn one_size_is_as_the_whole()
    ensures { OneSizeIsAsTheWhole }
{}

/// Whatever an output has, no row that is shown has a character that a terminal takes as an order; so all orders that
/// are handed on are the view's own. So it is whatever sizes are told between pieces.
pub fn screens_are_harmless()
    ensures whole { ScreensAreHarmless }
    ensures pieces { ScreensOfPiecesAreHarmless }
{}

/// A screen has no more rows than the terminal, and none of its rows covers more columns.
pub fn screens_fit()
    ensures rows { ScreensFit }
    ensures columns { RowsFit }
{}

/// A player is never out of sight: where a frame has a cell that shows the player, the first one is in the part that is
/// shown, wherever the part was before, and on each screen that is drawn, whatever is told last.
pub fn players_are_in_sight()
    ensures part { PlayersAreInSight }
    ensures drawn { PlayersAreDrawn }
{}
