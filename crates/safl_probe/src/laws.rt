//! Laws of traces and of the runs that they show, over the definitions alone.

ghost use Rattle.safl_probe.specs.Calls.{CallsMakeTraces};
ghost use Rattle.safl_probe.specs.Following.{DumpsShowFrames};
ghost use Rattle.safl_probe.specs.Ending.{RunsEnd};

use safl_sim::laws::run_law;

/// The texts that a probe gives, at the beginning, for each frame and at the end, joined together are the trace of the
/// frames.
pub fn trace_law()
    ensures { CallsMakeTraces }
{}

/// Read a value change dump from its beginning, and let each value hold until the next change of its code. Then at each
/// time below the number of frames every traced signal has the value that it has in that frame.
pub fn dump_law()
    ensures { DumpsShowFrames }
{}

/// A whole net without loops has a run of any length, for any arguments of the inputs' widths, and the run has an
/// outcome.
pub fn end_law()
    ensures { RunsEnd }
{
    run_law();
}
