//! Tests of nets.
//!
//! They are about order, cycles, optimisation, circuits of bodies, traces, texts and files, and bit-level circuits.
//! Tests are in a crate above the libraries, since a library with tests is proved twice.
#![tactic(auto)]

#[cfg(test)]
mod aig_texts;
#[cfg(test)]
mod bodies;
#[cfg(test)]
mod circuits;
#[cfg(test)]
mod files;
#[cfg(test)]
mod nets;
#[cfg(test)]
mod smaller_cases;
#[cfg(test)]
mod smaller_nets;
#[cfg(test)]
mod traces;
