//! From a source to the program that it spells, or to its first fault.
#![tactic(auto)]

mod error;
mod expr;
mod leaves;
pub mod parsed;
mod parser;
mod part;
mod program;
pub mod syntax;

pub use crate::parsed::{Parsed, parse, parse_program};
pub use crate::syntax::{ParseErr, parse_tokens};
