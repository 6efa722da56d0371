//! From a planned program to its circuit.
#![tactic(auto)]

mod arbiters;
mod arrivals;
mod bodies;
mod circuit;
mod controls;
mod declare;
mod edge;
mod events;
mod finish;
mod grants;
mod names;
mod next;
mod pins;
mod returns;
mod rivals;

pub use crate::circuit::{Circuit, SIGNALS_MAX, compile};
