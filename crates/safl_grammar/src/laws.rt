//! Laws of the sets of codes that a reader compares the next token with.

ghost use Rattle.safl_grammar.specs.Laws.{SubsetsHold, ApartShareNone, UnionsHoldBoth};

/// Each code of a subset is in the set.
pub fn subset_law()
    ensures { SubsetsHold }
{}

/// Two disjoint sets share no code.
pub fn apart_law()
    ensures { ApartShareNone }
{}

/// A union has exactly the codes of both sets.
pub fn union_law()
    ensures { UnionsHoldBoth }
{}
