//! The circuit of a program: its registers and wires, what its runs show, and what a netlist that mirrors it inherits.
#![tactic(auto)]

pub mod laws;
