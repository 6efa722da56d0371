//! Laws of numbers and their bits, over the definitions alone.

ghost use Rattle.safl_bits.specs.Laws.{BitsTell};

/// Two lists of bits of one length that stand for the same number are equal.
pub fn bits_tell_law()
    ensures { BitsTell }
{}
