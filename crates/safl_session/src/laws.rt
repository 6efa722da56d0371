//! Laws of sessions and scripts, over the definitions alone.

ghost use Rattle.safl_session.specs.Circuits.{BudgetsAreInTime, CircuitsReply, CircuitsServe, ResetIsQuiet};
ghost use Rattle.safl_session.specs.Laws.{NotBoth, OneFault, OneScript, RepliesExist, RepliesJoin, RepliesOnce};

/// A whole net without loops has exactly one list of replies to a list of calls. Further calls only add to it.
pub fn replies_law()
    ensures exist { RepliesExist }
    ensures once { RepliesOnce }
    ensures join { RepliesJoin }
{}

/// A text is at most one script and has at most one first fault, and it is not both a script and faulty.
pub fn script_law()
    ensures script { OneScript }
    ensures fault { OneFault }
    ensures not_both { NotBoth }
{}

/// A circuit serves calls one after another, from any quiet state; the state at reset is quiet. Each call starts in a
/// quiet state. If main evaluates the call's arguments in `n` calls of which `l` are loops, the reply's cycle is at
/// most `2n - l` and its word is main's. If `2n - l` is below the limit for each of the arguments, each call has a
/// reply.
pub fn session_law()
    ensures serves { CircuitsServe }
    ensures replies { CircuitsReply }
    ensures reset { ResetIsQuiet }
{}

/// If main evaluates in `n` calls and `3n` is at most the limit, the reply comes below the limit.
pub fn budget_law()
    ensures { BudgetsAreInTime }
{}
