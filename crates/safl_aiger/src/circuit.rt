//! Bit-level circuits.

ghost use Rattle.std.specs.Prelude.{◌≡◌, ◌<◌, length};
ghost use Rattle.safl_aiger.specs.Circuits.{IsCircuit, latches, circuit_of, names_of};

use crate::literal::Lit;
use std::marker::Model;

/// The name of an input, a latch or an output. It has no line feed, and may be empty.
#[derive(Drop)]
pub struct Name {
    pub bytes: Vec<u8>,
}

/// The names of inputs, latches and outputs, each list in the circuit's order.
#[derive(Drop)]
pub struct Names {
    pub inputs: Vec<Name>,
    pub latches: Vec<Name>,
    pub outputs: Vec<Name>,
}

/// A bit-level circuit: inputs, latches with their next literals, outputs, and ANDs of two literals. Its variables are
/// the inputs, the latches and the ANDs, numbered from 1 in this order. The operands of an AND have lower variables
/// than the AND itself.
#[derive(Drop)]
pub struct Aig {
    nexts: Vec<Lit>,
    outputs: Vec<Lit>,
    ands: Vec<(Lit, Lit)>,
    names: Names,
}

impl Model for Aig {
    ghost use Rattle.safl_aiger.specs.Circuits.{Circuit, IsCircuit, circuit_of};

    ghost Value = { Circuit };

    ghost view = { λ a. circuit_of a.nexts.items a.outputs.items a.ands.items a.names };

    ghost invariant = { λ a. IsCircuit (circuit_of a.nexts.items a.outputs.items a.ands.items a.names) };
}

impl Aig {
    /// The circuit with these parts. It has a latch for each next literal, and `names` has a name for each input, latch
    /// and output.
    pub fn new(nexts: Vec<Lit>, outputs: Vec<Lit>, ands: Vec<(Lit, Lit)>, names: Names) -> Aig
        requires { IsCircuit (circuit_of nexts.items outputs.items ands.items names) }
        ensures { result ≡ circuit_of nexts.items outputs.items ands.items names }
    {
        Aig {
            nexts,
            outputs,
            ands,
            names,
        }
    }

    /// The number of inputs.
    pub fn inputs(&self) -> u32
        ensures count { result ≡ self.now.inputs }
        ensures circuit { IsCircuit self.now }
    {
        self.names.inputs.len() as u32
    }

    /// The number of latches.
    pub fn latches(&self) -> u32
        ensures { result ≡ latches self.now }
    {
        self.nexts.len() as u32
    }

    /// The number of outputs.
    pub fn outputs(&self) -> u32
        ensures { result ≡ length self.now.outputs }
    {
        self.outputs.len() as u32
    }

    /// The number of ANDs.
    pub fn ands(&self) -> u32
        ensures { result ≡ length self.now.ands }
    {
        self.ands.len() as u32
    }

    /// The next literal of each latch.
    pub fn next_literals(&self) -> &[Lit]
        ensures { result.now ≡ self.now.nexts }
    {
        &self.nexts
    }

    /// The literal of each output.
    pub fn output_literals(&self) -> &[Lit]
        ensures { result.now ≡ self.now.outputs }
    {
        &self.outputs
    }

    /// The operands of each AND.
    pub fn operands(&self) -> &[(Lit, Lit)]
        ensures { result.now ≡ self.now.ands }
    {
        &self.ands
    }

    /// The names of the inputs.
    pub fn input_names(&self) -> &[Name]
        ensures { names_of result.now ≡ self.now.input_names }
    {
        &self.names.inputs
    }

    /// The names of the latches.
    pub fn latch_names(&self) -> &[Name]
        ensures { names_of result.now ≡ self.now.latch_names }
    {
        &self.names.latches
    }

    /// The names of the outputs.
    pub fn output_names(&self) -> &[Name]
        ensures { names_of result.now ≡ self.now.output_names }
    {
        &self.names.outputs
    }
}
