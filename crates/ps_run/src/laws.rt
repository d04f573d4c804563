//! Laws of runs.

ghost use Rattle.ps_run.specs.Answering.{AnswersCarryOver};

/// What is so of a run by rules that have the runs of a text's game is what a run on the text may answer.
pub fn answers_carry_over()
    ensures { AnswersCarryOver }
{}
