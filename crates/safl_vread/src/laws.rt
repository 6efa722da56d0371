//! A law of Verilog files, over the definitions alone.

ghost use Rattle.safl_verilog.specs.Laws.{ReadsWhole};

/// The netlist that a text reads as is whole.
pub fn reads_whole_law()
    ensures { ReadsWhole }
{}
