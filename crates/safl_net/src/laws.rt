//! Laws of netlists, over the definitions alone.

ghost use Rattle.safl_net.specs.Laws.{AtMostOneValuation, ExactlyOneValuation};
ghost use Rattle.safl_net.specs.MirrorRuns.{MirrorsRunAlike};

/// If a net has no loops and all its wires have cells, at most one valuation fits a state and inputs.
pub fn at_most_one_valuation()
    ensures { AtMostOneValuation }
{}

/// If a net has no loops and all its wires have cells, exactly one valuation fits a state and inputs.
pub fn exactly_one_valuation()
    ensures { ExactlyOneValuation }
{}

/// A net that mirrors another in every cycle has the same numbers in every run.
pub fn mirrors_run_alike()
    ensures { MirrorsRunAlike }
{}
