//! The program's main call: from the words of a command line to files, printed lines and a status.
#![tactic(auto)]

mod answer;
pub mod arguments;
mod asking;
mod bit_level;
mod build;
mod check;
mod generated;
pub mod laws;
mod ready;
pub mod refusal;
mod report;
mod reshape;
mod run_file;
mod session;
mod simulate;
pub mod source;
pub mod top;
mod tracing;
mod verilog_lines;
mod walk;
mod work;

pub use crate::top::run;
pub use safl_task::Status;
