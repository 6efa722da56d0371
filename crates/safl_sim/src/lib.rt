//! Simulation of netlists, cycle by cycle.
#![tactic(auto)]

mod chains;
pub mod done;
mod guards;
pub mod laws;
mod marks;
mod near;
mod parts;
mod phases;
mod plan;
mod readers;
pub mod sim;
mod step;
mod table;

pub use crate::done::Done;
pub use crate::sim::Sim;
