//! Laws of the board: chains of the movement, and places of rules.
//!
//! Each function here is a law: it has no body, and its contract is proved.

ghost use Rattle.ps_laws.specs.Sliding.{ChainsSlide, PlacesLieOnBoards, PlacesAreWhole, PlacesAreStraight};

/// A chain of any length that ends in an empty cell makes an object slide: the number of cells, to which the definition
/// looks, leaves none out.
pub fn chains_slide()
    ensures { ChainsSlide }
{}

/// The places of a row lie on the board in a straight line, with gaps between the row's parts alone. Each has a cell
/// for each cell of the row.
pub fn places_lie_on_boards()
    ensures within { PlacesLieOnBoards }
    ensures whole { PlacesAreWhole }
    ensures straight { PlacesAreStraight }
{}
