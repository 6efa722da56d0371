//! Evaluation of main that tells time: the word, the calls, the tail calls, the span, and which functions are called.
#![tactic(auto)]

pub mod account;
pub mod evaluation;
pub mod frame;
pub mod rounds;
pub mod steps;
pub mod turn;

pub use crate::account::Account;
pub use crate::evaluation::{Timing, measure};
