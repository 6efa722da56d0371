//! The reader of Verilog files: from a text to the net that it reads as, or to its first fault.
#![tactic(auto)]

mod driver;
mod elaborate;
mod expressions;
pub mod laws;
mod make;
mod missing;
mod names;
mod numbers;
mod places;
mod ports;
mod read;
mod scope;
mod spans;
mod statements;

pub use crate::read::read_net;
pub use safl_vparse::{VErr, VFault, VRule};
