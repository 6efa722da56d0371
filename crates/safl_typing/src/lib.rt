//! The rules for checking a program: widths, names, groups and limits, and which fault is the first.
#![tactic(auto)]

pub mod checking;
pub mod context;
pub mod expression;
pub mod heads;
pub mod laws;
mod make;
pub mod marks;
pub mod opened;
mod repeats;
pub mod rewrite;
pub mod scope;
mod shape;
pub mod sites;
mod terms;
pub mod typed;
mod wanted;
