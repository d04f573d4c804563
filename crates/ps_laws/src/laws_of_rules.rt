//! Laws of rules: what rules that are alike have in common, what a rule turned round does, which rules do nothing, and
//! when rounds and passes end.
//!
//! Each function here is a law: it has no body, and its contract is proved.

ghost use Rattle.ps_laws.specs.AlikeRounds.{KeptAreAlike, SameAreAlike, AlikeBothWays, AlikeThroughAnother};
ghost use Rattle.ps_laws.specs.AlikeRounds.{AppendedAreAlike, JoinedAreAlike, ForwardsAreAlike, IdleIsLeftOut};
ghost use Rattle.ps_laws.specs.AlikeRounds.{AlikeGroups, AlikePasses, AlikeLoops, AlikeSections, AlikePrograms};
ghost use Rattle.ps_laws.specs.CancelledRuns.{SectionsKeepCancelled, ProgramsKeepCancelled};
ghost use Rattle.ps_laws.specs.EqualMeanings.{EqualAttempts, EqualRounds, EqualGroups, EqualPasses, EqualLoops};
ghost use Rattle.ps_laws.specs.EqualMeanings.{EqualSections, EqualPrograms};
ghost use Rattle.ps_laws.specs.IdleRules.{NowhereIsNothing, FittingNoneIsIdle, LeavingAllIsIdle};
ghost use Rattle.ps_laws.specs.Settling.{GroupsSettle, LoopsPass};
ghost use Rattle.ps_laws.specs.TurningRound.{PlacesTurned, AttemptsTurned, AttemptsForwards, RoundsForwards};
ghost use Rattle.ps_laws.specs.TurningRound.{GroupsForwards, PassesForwards, LoopsForwards, SectionsForwards};
ghost use Rattle.ps_laws.specs.TurningRound.{ProgramsForwards};

/// Rules whose cells fit alike and rewrite alike come to the same, alone, in groups, in loops and in whole programs.
pub fn equal_meanings()
    ensures attempts { EqualAttempts }
    ensures rounds { EqualRounds }
    ensures groups { EqualGroups }
    ensures passes { EqualPasses }
    ensures loops { EqualLoops }
    ensures sections { EqualSections }
    ensures programs { EqualPrograms }
{}

/// A group makes rounds until one changes nothing, or until their limit; a loop makes passes until one changes nothing,
/// or until no repeat is left.
pub fn settling()
    ensures groups { GroupsSettle }
    ensures loops { LoopsPass }
{}

/// A rule turned round, its rows read from their other ends, does the same the opposite way. So each rule may face down
/// or right.
pub fn turning_round()
    ensures places { PlacesTurned }
    ensures turned { AttemptsTurned }
    ensures attempts { AttemptsForwards }
    ensures rounds { RoundsForwards }
    ensures groups { GroupsForwards }
    ensures passes { PassesForwards }
    ensures loops { LoopsForwards }
    ensures sections { SectionsForwards }
    ensures programs { ProgramsForwards }
{}

/// Which lists of rules have equal rounds: those that are alike rule by rule, and what is made of such lists. So
/// several rules may stand for one, each may face down or right, and one that does nothing may be left out.
pub fn alike_rounds()
    ensures kept { KeptAreAlike }
    ensures same { SameAreAlike }
    ensures back { AlikeBothWays }
    ensures through { AlikeThroughAnother }
    ensures appended { AppendedAreAlike }
    ensures joined { JoinedAreAlike }
    ensures forwards { ForwardsAreAlike }
    ensures idle { IdleIsLeftOut }
{}

/// Lists of rules whose rounds are equal come to the same in groups, in loops and in whole programs.
pub fn alike_programs()
    ensures groups { AlikeGroups }
    ensures passes { AlikePasses }
    ensures loops { AlikeLoops }
    ensures sections { AlikeSections }
    ensures programs { AlikePrograms }
{}

/// A rule does nothing where one of its cells fits none of the board's. It does nothing at all where it has no commands
/// and its cells leave what they fit as it is.
pub fn idle_rules()
    ensures nowhere { NowhereIsNothing }
    ensures none { FittingNoneIsIdle }
    ensures leaving { LeavingAllIsIdle }
{}

/// Once `cancel` is queued, the rest of a program changes nothing of what is queued.
pub fn cancelled_runs()
    ensures sections { SectionsKeepCancelled }
    ensures programs { ProgramsKeepCancelled }
{}
