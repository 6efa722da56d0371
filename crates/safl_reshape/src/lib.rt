//! Reshaping sources: a function is copied for one of its calls, or a call is replaced by the function's body.
#![tactic(auto)]

mod change;
mod changes;
mod copy;
mod counts;
mod defs;
mod duplicate;
pub mod error;
mod inline;
pub mod laws;
mod limits;
mod make;
mod own;
pub mod program;
mod unfold;

pub use crate::error::ReshapeErr;
pub use crate::program::{copy_checked, copy_site, unfold_checked, unfold_site};
