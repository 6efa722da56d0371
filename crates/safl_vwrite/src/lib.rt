//! The Verilog text of a net.
#![tactic(auto)]

mod cells;
mod declarations;
mod file;
mod pieces;
mod statements;
mod text;

pub use crate::file::{WriteErr, write_net};
pub use crate::text::text_of;
