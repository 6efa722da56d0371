//! The lexer and the parser of Verilog files.
#![tactic(auto)]

mod error;
mod file;
mod front;
mod grammar;
mod lexer;
pub mod numbers;
mod parser;
mod read;
mod symbols;

pub use crate::error::VErr;
pub use crate::file::{Declaration, Expression, File, Range, Span, Statement, Update};
pub use crate::read::parse;
pub use safl_verilog::{VFault, VRule};
