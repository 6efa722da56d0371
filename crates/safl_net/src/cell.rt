//! Signals, operations and cells.

use arrayvec::ArrayVec;
use safl_word::{Primitive, Word};

/// A signal of a net, by its number.
#[derive(Clone, Copy, Debug, Default, PartialEq, Eq)]
pub struct Sig(pub u32);

/// The kind of a signal.
#[derive(Clone, Copy, Debug, PartialEq, Eq)]
pub enum SigKind {
    Input,
    Reg,
    Wire,
}

/// The operation of a cell. A constant has no operands and a copy one. A multiplexer has three: the condition, of width
/// 1; what is selected if it is 1; and what is selected otherwise.
#[derive(Clone, Copy, Debug, PartialEq, Eq)]
pub enum Op {
    Const(Word),
    Copy,
    Mux,
    Apply(Primitive),
}

/// The cell that gives a wire its word: an operation and its operands.
#[derive(Drop)]
pub struct Cell {
    pub op: Op,
    pub operands: ArrayVec<Sig, 3>,
}

/// The widths of a cell or a next signal do not fit: the width that is needed, and the one that was found. The latter
/// is 0 if the operands do not fit the operation.
#[derive(Clone, Copy, Debug, PartialEq, Eq, thiserror::Error)]
#[error("the width is {found} and not {wanted}")]
pub struct WidthsDiffer {
    pub wanted: u8,
    pub found: u8,
}
