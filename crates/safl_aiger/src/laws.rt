//! Laws of bit-level circuits, over the definitions alone.

ghost use Rattle.safl_aiger.specs.ReadLaws.{OneReading, OneFault, NoFault, ReadIsCircuit, ReadsOrFails};
ghost use Rattle.safl_aiger.specs.RunLaws.{SomeFit, OneFit, SomeRun};
ghost use Rattle.safl_aiger.specs.TextLaws.{WrittenReads};

/// Some values fit each state and inputs.
pub fn some_fit_law()
    ensures { SomeFit }
{}

/// No two different values fit one state and inputs.
pub fn one_fit_law()
    ensures { OneFit }
{}

/// Each list of inputs has a run.
pub fn some_run_law()
    ensures { SomeRun }
{}

/// The text that is written for a circuit reads as that circuit.
pub fn written_reads_law()
    ensures { WrittenReads }
{}

/// What a text reads as is a circuit: each literal is one of its variables, the operands of each AND come before it,
/// and each name is without a line feed.
pub fn read_circuit_law()
    ensures { ReadIsCircuit }
{}

/// A text reads as at most one circuit.
pub fn one_reading_law()
    ensures { OneReading }
{}

/// A text has at most one first fault.
pub fn one_fault_law()
    ensures { OneFault }
{}

/// A text that reads as a circuit has no fault.
pub fn no_fault_law()
    ensures { NoFault }
{}

/// A text that reads as no circuit has a fault.
pub fn reads_or_fails_law()
    ensures { ReadsOrFails }
{}
