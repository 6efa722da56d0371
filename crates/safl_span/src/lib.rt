//! The figures of an evaluation of main, and whether done comes exactly in the cycle of its span.
#![tactic(auto)]

pub mod figures;
pub mod sharing;

pub use crate::figures::{Figures, time};
