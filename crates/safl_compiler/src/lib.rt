//! The compiler: from a source to its checked program or its first fault, and from there to its plan and its circuit.
#![tactic(auto)]

pub mod accepted;
pub mod circuit;
pub mod laws;
pub mod optimised;

pub use crate::accepted::{Accepted, accept, accepted_program};
pub use crate::circuit::{circuit_of, plan_of, planned_circuit};
pub use crate::optimised::{optimised_circuit_of, ordered};
pub use safl_check::CheckErr;
