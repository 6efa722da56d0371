//! The checker of whole programs: from a tree to a checked program, or to its first fault.
#![tactic(auto)]

mod form;
mod functions;
mod groups;
mod heads;
pub mod laws;
mod limits;
mod nodes;
pub mod program;
mod sites;

pub use crate::heads::{heads_of, next_unit};
pub use crate::program::{check, check_defs};
pub use safl_term::{Checked, Function, Parameter, Site, Term};
pub use safl_typing::typed::CheckErr;
