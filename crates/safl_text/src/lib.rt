//! The lexer of sources.
#![tactic(auto)]

pub mod error;
mod front;
pub mod laws;
pub mod lexer;
mod symbols;

pub use crate::error::LexErr;
pub use crate::lexer::lex;
pub use safl_word::{Key, Sym, Token, TokenKind};
