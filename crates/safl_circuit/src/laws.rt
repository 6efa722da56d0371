//! Laws of circuits, over the definitions alone.

ghost use Rattle.safl_circuit.specs.Theorem.{BehavedOnesCome, CorrectOnesCome, CyclesAreEvents, LatestIsSoon, SchemesAreCircuits, SchemesAreWhole, ServingSchemesAreCircuits};
ghost use Rattle.safl_circuit.specs.Blind.{ControlIsBlind};
ghost use Rattle.safl_circuit.specs.Mirrored.{MirrorsKeepPlans, MirrorsKeepSchemes};

/// A netlist that has the scheme of a well-formed program, and enough arbiters and kept words, computes what the
/// program means.
pub fn circuit_law()
    ensures { SchemesAreCircuits }
{}

/// A netlist with the scheme of a well-formed program computes what the program means for any choice of arbiters and
/// kept words, as long as no two sites of a unit meet without an arbiter and the shown words serve.
pub fn serving_law()
    ensures { ServingSchemesAreCircuits }
{}

/// From any quiet state, the cycles of the registers are events of the call machine.
pub fn cycle_law()
    ensures { CyclesAreEvents }
{}

/// A netlist with the scheme of a program is whole: each wire has a cell and each register a next signal, and there are
/// an input `start` of width 1, an output `done` of width 1 and an output `result`.
pub fn whole_law()
    ensures { SchemesAreWhole }
{}

/// The last cycle in which `done` may come is `2n - l` for `n` calls of which `l` are tail calls. It is below `3n`.
pub fn latest_law()
    ensures { LatestIsSoon }
{}

/// If main gives a value in n calls, then in every run of 3n cycles or more `done` is 1 in exactly one cycle, which is below
/// `3n`, with that value as the result: from reset in each netlist that is correct for the program, and from each state
/// from which it behaves.
pub fn comes_law()
    ensures reset { CorrectOnesCome }
    ensures state { BehavedOnesCome }
{}

/// A net that mirrors a net with the scheme of a circuit has that scheme too.
pub fn scheme_carries_over()
    ensures { MirrorsKeepSchemes }
{}

/// A net that mirrors a net with exactly the arbiters and kept words of a plan has them too.
pub fn plan_carries_over()
    ensures { MirrorsKeepPlans }
{}

/// Two runs from quiet registers, whose public arguments are equal, have the same control in every cycle, if each body
/// keeps the labels of what is public. So done comes in the same cycle, whatever words the registers held at first.
pub fn control_law()
    ensures { ControlIsBlind }
{}
