//! An order in which the wires of a net can be evaluated.
#![tactic(auto)]

pub mod laws;
pub mod ordered;
mod walk;

pub use crate::ordered::{OrderErr, Ordered, order};
