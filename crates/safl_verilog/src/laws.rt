//! Laws of Verilog files, over the definitions alone.

ghost use Rattle.safl_verilog.specs.Laws.{OneNetlist, OneFault, NetlistOrFault, NotBoth, NoShorterFile, NoShorterText, ReadsInOrder, WrittenReads};

/// A text reads as at most one netlist.
pub fn one_netlist_law()
    ensures { OneNetlist }
{}

/// A text has at most one first fault.
pub fn one_fault_law()
    ensures { OneFault }
{}

/// A text reads as a netlist or has a first fault.
pub fn netlist_or_fault_law()
    ensures { NetlistOrFault }
{}

/// A text that reads as a netlist has no first fault.
pub fn not_both_law()
    ensures { NotBoth }
{}

/// If a text is a file of the grammar, no shorter prefix of it is.
pub fn no_shorter_file_law()
    ensures { NoShorterFile }
{}

/// The netlist that a text reads as has its inputs first, then its registers, then its wires.
pub fn reads_in_order_law()
    ensures { ReadsInOrder }
{}

/// The text that is written for a whole net reads as that net, if its inputs come first, then its registers, then its
/// wires.
pub fn written_reads_law()
    ensures { WrittenReads }
{}

/// A prefix of the text that is written for a net reads as no netlist, unless it is the whole text, with or without its
/// last line feed. This also holds for nets that are not whole, and for any order of signals.
pub fn no_shorter_text_law()
    ensures { NoShorterText }
{}
