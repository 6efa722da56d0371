//! Bit-level circuits of netlists, their AIGER texts, and what the program prints about them.
#![tactic(auto)]

pub mod conversion;
pub mod laws;
pub mod lines;
pub mod netlist_text;
pub mod places;
pub mod table;
pub mod weights;
pub mod wires;
pub mod wiring;

pub use crate::conversion::{BlastErr, blast};
pub use crate::lines::{counts_lines, fault_line, register_line, weight_line};
pub use crate::netlist_text::aiger_text;
pub use safl_aiger::{Aig, AigErr, AigRule, Lit, Name, Names, aig_text, read_aig, rule_text};
