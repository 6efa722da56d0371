//! Which parameters and results of a program may decide about time, so that the time tells no secret.
#![tactic(auto)]

mod keeping;
pub mod labels;
mod likeness;
mod marking;
mod notes;
pub mod places;
mod plain;
pub mod search;
mod twins;

pub use crate::labels::{Finding, Labels, Obstacle, Parameter};
pub use crate::places::place_of_branch;
pub use crate::search::find_labels;
