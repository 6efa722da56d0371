//! The program's main call: from the words of a command line to printed lines and a status.
#![tactic(auto)]

pub mod blind;
pub mod lines;
pub mod names;
mod obstacles;
pub mod request;
pub mod stop;
pub mod timing;
pub mod top;

pub use crate::top::run;
