//! Optimisation of netlists: constants are folded, equal cells are shared, and wires that nothing reads are left out.
#![tactic(auto)]

mod build;
mod fold;
mod live;
mod names;
mod node;
pub mod smaller;
pub mod spare;

pub use crate::smaller::optimise;
pub use crate::spare::lean;
