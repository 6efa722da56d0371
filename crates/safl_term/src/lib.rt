//! Checked programs: their terms, their meaning, and when a program is well formed.
#![tactic(auto)]

pub mod checked;
mod dismantle;
pub mod laws;
pub mod node;
pub mod term;

pub use crate::checked::{Checked, Function, Parameter, Site};
pub use crate::node::{Node, top};
pub use crate::term::Term;
