//! Laws of loops, over the definitions alone.

ghost use Rattle.safl_order.specs.Laws.{LoopsAreCyclic};

/// A net with a loop has no ranks that rise from operands to wires.
pub fn loops_are_cyclic()
    ensures { LoopsAreCyclic }
{}
