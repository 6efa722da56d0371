//! The commands, and how the words of a command line are read as one.
#![tactic(auto)]

mod arguments;
mod command;
mod forms;
pub mod laws;
mod reading;
mod traces;

pub use crate::command::{CYCLES_MAX, Command, Count, Turns};
pub use crate::reading::read_words;
pub use crate::traces::Traces;
