//! Reports: which units have arbiters, which sites keep their words, and how many registers there are.
#![tactic(auto)]

mod calls;
pub mod laws;
mod line;
mod lines;
mod registers;
mod reports;

pub use crate::reports::{report, summary};
