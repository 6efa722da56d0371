//! The syntax tree of a Verilog file.

use safl_verilog::Sort;
use safl_word::Primitive;

/// A name or a number, as the bytes of the text from `start` up to `stop`.
#[derive(Clone, Copy, Debug, PartialEq, Eq)]
pub struct Span {
    pub start: u32,
    pub stop: u32,
}

/// What a name is assigned.
#[derive(Clone, Copy, Debug, PartialEq, Eq)]
pub enum Expression {
    Literal(Span),
    Plain(Span),
    Inverted(Span),
    Binary(Primitive, Span, Span),
    Choice(Span, Span, Span),
    Joined(Span, Span),
    Slice(Span, Span, Span),
}

/// A range of bits, as it is written: two numbers.
#[derive(Clone, Copy, Debug, PartialEq, Eq)]
pub struct Range {
    pub high: Span,
    pub low: Span,
}

#[derive(Clone, Copy, Debug, PartialEq, Eq)]
pub struct Declaration {
    pub sort: Sort,
    pub range: Option<Range>,
    pub name: Span,
}

/// The update of a register at the clock's edge.
#[derive(Clone, Copy, Debug, PartialEq, Eq)]
pub struct Update {
    pub clock: Span,
    pub reset: Span,
    pub target: Span,
    pub initial: Span,
    pub second: Span,
    pub source: Span,
}

#[derive(Clone, Copy, Debug, PartialEq, Eq)]
pub enum Statement {
    Assign(Span, Expression),
    Always(Update),
}

/// A file: the names of its header, its declarations and its statements.
#[derive(Drop)]
pub struct File {
    pub header: Vec<Span>,
    pub declarations: Vec<Declaration>,
    pub statements: Vec<Statement>,
}
