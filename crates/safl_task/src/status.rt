//! Exit statuses.

ghost use Rattle.std.specs.Prelude.{◌≡◌};
ghost use Rattle.safl_task.specs.Statuses.{number_of};
ghost use Rattle.safl_task.specs.Tasks.{status_if};

/// How a call of the program ended. The numbers of the variants are the program's exit statuses.
#[derive(Clone, Copy, Debug, PartialEq, Eq)]
pub enum Status {
    Ok = 0,
    /// The source is refused.
    SourceRefused = 1,
    /// The words do not form a command.
    Usage = 2,
    /// A file could not be read.
    ReadFault = 3,
    /// A file could not be written, or what is printed could not be sent.
    WriteFault = 4,
    NoMemory = 5,
    /// `done` did not rise below the limit, or main did not return.
    NoResult = 6,
    /// The Verilog file is refused.
    VerilogRefused = 7,
    /// The arguments do not fit main's parameters.
    BadArgs = 8,
    /// A probe failed.
    ProbeFault = 9,
    /// The input file is longer than the limit.
    TooLong = 10,
    /// The AIGER file is refused.
    AigRefused = 11,
    /// The netlist is too heavy for a bit-level circuit.
    CircuitTooLarge = 12,
    /// The site cannot be reshaped.
    ReshapeRefused = 13,
    /// A register of the netlist does not reset to 0.
    NotZero = 14,
}

impl Status {
    /// The number of the exit status.
    pub fn number(self) -> u8
        ensures { result ≡ number_of self }
    {
        self as u8
    }
}

/// The status of a command by whether a result came.
pub fn status_if(comes: bool) -> Status
    ensures { result ≡ status_if comes }
{
    if comes { Status::Ok } else { Status::NoResult }
}
