//! Sets of numbers.
#![tactic(auto)]

pub mod grouped_set;
mod groups;
mod links;
pub mod number_set;
mod places;
mod tally;

pub use crate::grouped_set::GroupedSet;
pub use crate::number_set::NumberSet;
