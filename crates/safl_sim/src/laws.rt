//! Laws of runs, over the definitions alone.

ghost use Rattle.safl_sim.specs.Existence.{OneRunExists, ResetFits, RunsExist};

/// From any state of the right widths, with any arguments of the inputs' widths, a whole net without loops has a run of
/// any length. The state at reset is such a state, and from it exactly one run has all inputs 0 after cycle 0.
pub fn run_law()
    ensures exist { RunsExist }
    ensures reset { ResetFits }
    ensures one { OneRunExists }
{}
