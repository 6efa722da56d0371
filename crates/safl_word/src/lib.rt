//! Words of 1 to 128 bits and the primitives on them; numbers, tokens and faults of sources; and tables of numbers.
#![tactic(auto)]

pub mod bytes;
pub mod fault;
pub mod fault_text;
pub mod halves;
pub mod laws;
pub mod limits;
pub mod narrow;
pub mod numbers;
pub mod operators;
pub mod primitive;
pub mod token;
pub mod word;

pub use crate::fault::{Fault, NoMemory, Rule};
pub use crate::fault_text::push_fault;
pub use crate::halves::{Numbers, from_halves, high_half, low_half};
pub use crate::narrow::{LOW_MAX, narrow_one, narrow_two};
pub use crate::numbers::{argument, decimal, numeral, push_binary, push_decimal};
pub use crate::operators::{apply, result_width};
pub use crate::primitive::Primitive;
pub use crate::token::{Key, Sym, Token, TokenKind};
pub use crate::word::{Raw, Word, greatest};
