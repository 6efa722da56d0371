//! The commands of a command line.

ghost use Rattle.std.specs.Prelude.{◌≤◌};
ghost use Rattle.safl_word.specs.Limits.{generated_max};

use crate::traces::Traces;

/// The greatest number of cycles of a run, and of events of a walk.
pub const CYCLES_MAX: u64 = 1_000_000_000;

/// How a walk goes: it picks events by the numbers that follow from `seed`, at most `steps` of them, 1 to `CYCLES_MAX`.
#[derive(Clone, Copy)]
pub struct Turns {
    pub seed: u64,
    pub steps: u32,
}

/// How many functions a generated source has besides main: 1 to `GENERATED_MAX`.
#[derive(Clone, Copy)]
pub struct Count {
    pub functions: u32,
    pub ghost least: { 1 ≤ functions },
    pub ghost most: { functions ≤ generated_max },
}

/// A command, with its arguments.
#[derive(Drop)]
pub enum Command {
    /// Reads and checks the source of `input`.
    Check {
        input: String,
    },
    /// Reads a source from `input` and writes the Verilog text of its circuit to `output`.
    Build {
        input: String,
        output: String,
    },
    /// Reads a source from `input` and writes the Verilog text of its optimised circuit to `output`.
    Optimise {
        input: String,
        output: String,
    },
    /// Reads a source from `input` and runs its circuit for at most `limit` cycles, 1 to `CYCLES_MAX`, with these arguments.
    /// It writes those traces of the run for which there are files.
    Sim {
        input: String,
        limit: u64,
        traces: Traces,
        args: Vec<String>,
    },
    /// Reads a source from `input` and walks its call machine with these arguments.
    Walk {
        input: String,
        turns: Turns,
        args: Vec<String>,
    },
    /// Reads a Verilog file from `input` and runs its netlist for at most `limit` cycles, 1 to `CYCLES_MAX`, with these arguments.
    Run {
        input: String,
        limit: u64,
        args: Vec<String>,
    },
    /// Reads a source from `input` and reports its plan and its registers.
    Report {
        input: String,
    },
    /// Makes a source of `count` functions and main from the numbers that follow from `seed`.
    Gen {
        seed: u64,
        count: Count,
    },
    /// Makes the source that `Gen` makes, and runs its circuit for at most `limit` cycles, 1 to `CYCLES_MAX`.
    Bench {
        seed: u64,
        count: Count,
        limit: u64,
    },
    /// Reads a source from `input` and writes it to `output` with a copy of the function that call site `site` calls.
    /// Only this site calls the copy.
    CopySite {
        input: String,
        output: String,
        site: u64,
    },
    /// Reads a source from `input` and writes it to `output`. The body of the called function stands in place of the
    /// call at `site`.
    UnfoldSite {
        input: String,
        output: String,
        site: u64,
    },
    /// Reads a source from `input` and runs its circuit once for each line of `script`, each for at most `limit` cycles.
    Session {
        input: String,
        script: String,
        limit: u64,
    },
    /// Reads a Verilog file from `input` and writes the bit-level circuit of its netlist to `output`.
    Aig {
        input: String,
        output: String,
    },
    /// Reads a bit-level circuit from `input` and prints its size.
    Aigstat {
        input: String,
    },
}
