//! Bit-level circuits, which are latches and ANDs over literals, and their AIGER texts.
#![tactic(auto)]

pub mod circuit;
pub mod laws;
pub mod lines;
pub mod literal;
pub mod read;
pub mod reading;
pub mod rules;
pub mod sections;
pub mod symbols;
pub mod text;

pub use crate::circuit::{Aig, Name, Names};
pub use crate::literal::Lit;
pub use crate::read::{AigErr, read_aig};
pub use crate::reading::AigRule;
pub use crate::rules::rule_text;
pub use crate::text::aig_text;
