//! Laws of the faults that are told together.
//!
//! Each function here is a law: it has no body, and its contract is proved.

ghost use Rattle.ps_game.specs.ToldLaws.{EachLineIsTold, FirstIsToldFirst, NoneOfGames, ToldAreFaults};

/// Each fault that is told is one that the text has, and the first is the one that a refusal tells. Of each line that
/// has a fault in the phase that fails first one is told. A text of which none is told is a game.
pub fn told_faults_are_faults()
    ensures first { FirstIsToldFirst }
    ensures all { ToldAreFaults }
    ensures games { NoneOfGames }
    ensures lines { EachLineIsTold }
{}
