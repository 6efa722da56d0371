//! Laws of calls, over the definitions alone.

ghost use Rattle.safl_run.specs.Laws.{CallsAreOne, AnswersExist, AnswersOnce, AnswersAreOutcomes};

/// From a given state, with given arguments, a whole net without loops has exactly one call of each length. The call
/// has exactly one answer; from reset, that answer is what the only run shows.
pub fn call_law()
    ensures one { CallsAreOne }
    ensures exist { AnswersExist }
    ensures once { AnswersOnce }
    ensures outcomes { AnswersAreOutcomes }
{}
