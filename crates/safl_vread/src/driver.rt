//! What gives a declared name its word.

use safl_net::Op;
use safl_word::Word;

/// The places of the declared names that are operands.
#[derive(Clone, Copy, Debug, PartialEq, Eq)]
pub enum Operands {
    None,
    One(usize),
    Two(usize, usize),
    Three(usize, usize, usize),
}

/// What drives a declared name: nothing yet; an operation on declared names; or, for a register, its word at reset and
/// the place of its next signal.
#[derive(Clone, Copy, Debug, PartialEq, Eq)]
pub enum Driver {
    Open,
    Cell(Op, Operands),
    Next(Word, usize),
}
