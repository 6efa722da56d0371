//! Tests that call one crate or a few.
//!
//! They are about words, tokens and trees of sources, whole programs and their meaning, call machines, plans, printed
//! texts, generated sources, command lines, a shelf over files, and a sink over a writer.
//!
//! Tests are in a crate above the libraries, since a library with tests is proved twice. Calls of the whole program are
//! cases (`docs/CASES.md`).
#![tactic(auto)]

#[cfg(test)]
mod commands;
#[cfg(test)]
mod deep_terms;
#[cfg(test)]
mod deep_trees;
#[cfg(test)]
mod depths;
#[cfg(test)]
mod generated;
#[cfg(test)]
mod machines;
#[cfg(test)]
mod meanings;
#[cfg(test)]
mod operators;
#[cfg(test)]
mod reshapes;
#[cfg(test)]
mod secrets;
#[cfg(test)]
mod shelves;
#[cfg(test)]
mod sinks;
#[cfg(test)]
mod slow_files;
#[cfg(test)]
mod sources;
#[cfg(test)]
mod tokens;
