//! Laws over the definitions alone.

ghost use Rattle.safl_tool.specs.Laws.{EndsTell, FirstAreAsked};

/// For each kind of trace that has a file, the first probe of that kind is asked, and no other probe is. The list of probes
/// suffices exactly where each file has a probe of its kind.
pub fn asked_law()
    ensures { FirstAreAsked }
{}

/// Standard error got nothing at Ok and NoResult, a prefix of the line of a cause at NoMemory, and otherwise the line of the
/// status's cause, or a prefix of it if its sink failed.
pub fn told_law()
    ensures { EndsTell }
{}
