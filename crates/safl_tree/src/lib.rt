//! Programs as trees, the grammar of their texts, and printing them with as few parentheses as possible.
#![tactic(auto)]

mod depth;
mod dismantle;
pub mod laws;
mod levels;
pub mod name;
pub mod opened;
mod precedence;
mod print_expression;
mod print_program;
mod print_words;
pub mod tree;

pub use crate::depth::is_within;
pub use crate::levels::levels_ok;
pub use crate::name::Name;
pub use crate::opened::{Opened, top};
pub use crate::print_program::print;
pub use crate::tree::{Arm, Bind, Def, Expr, Node, Param, Program};
