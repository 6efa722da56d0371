//! The plan of a circuit: which units need an arbiter, and which sites keep their words.
#![tactic(auto)]

mod collect;
mod fill;
mod keep;
mod kept;
pub mod laws;
mod parallel;
mod peers;
mod planned;
mod planning;
mod reach;
mod site_set;
mod spread;
mod touched;

pub use crate::planned::Planned;
pub use crate::planning::plan;
