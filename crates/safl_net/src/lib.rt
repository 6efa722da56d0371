//! Netlists, and when one netlist does the same as another: by the names of all signals other than temporary wires.
#![tactic(auto)]

pub mod arguments;
pub mod cell;
pub mod laws;
pub mod names;
pub mod net;
pub mod widths;

pub use crate::arguments::argument_widths;
pub use crate::cell::{Cell, Op, Sig, SigKind, WidthsDiffer};
pub use crate::net::{Net, NetErr};
pub use crate::widths::op_width;
