//! From the bodies of functions to circuits.
//!
//! This crate has the gates, one temporary each, and the ways to join them: tables of bits and words, whose entries are
//! joined one after another, and rows, whose entries are joined by halves.
#![tactic(auto)]

mod body;
mod calls_by_site;
pub mod gates;
mod group;
mod holding;
mod joins;
mod load_tables;
pub mod loads;
pub mod lowered;
mod merge;
mod primitives;
mod ready;
pub mod resets;
pub mod rows;
mod shifts;
mod terms;
pub mod trees;

pub use crate::body::lower;
pub use crate::lowered::{Body, Ports, SitePorts};
