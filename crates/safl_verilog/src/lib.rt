//! Verilog files of the profile: their tokens, grammar and rules, and the netlist that a file reads as.
#![tactic(auto)]

pub mod fault;
pub mod fault_text;
pub mod laws;
pub mod token;

pub use crate::fault::{VFault, VRule};
pub use crate::fault_text::push_vfault;
pub use crate::token::{Keyword, Sort, Symbol, Token, TokenKind};
