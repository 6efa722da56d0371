//! Calls of a net, one after another, each until `done` is 1 or a limit of cycles is reached.
#![tactic(auto)]

pub mod harness;
mod input_words;
pub mod laws;
pub mod runner;
pub mod until_done;

pub use crate::harness::Harness;
pub use crate::runner::Runner;
pub use crate::until_done::run_until_done;
