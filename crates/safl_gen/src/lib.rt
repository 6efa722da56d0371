//! Random sources of any length, each made from a seed.
#![tactic(auto)]

mod draws;
mod lines;
mod source;

pub use crate::source::{GenErr, generate};
