//! The call machine: units that accept calls, loop, finish and return.
#![tactic(auto)]

pub mod laws;
