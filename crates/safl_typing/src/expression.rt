//! Expressions in which each `case` is rewritten.

use safl_tree::Name;
use safl_word::{Primitive, Raw};

/// Facts about an expression, noted when it is made, so that its parts need not be looked at again.
#[derive(Clone, Copy)]
pub struct Marks {
    /// Whether the expression takes any width.
    pub flexible: bool,
    /// The number of its call sites, up to 4,001.
    pub sites: u32,
}

/// An expression in which each `case` is rewritten as a let and ifs. The first field of each variant is its place.
#[derive(Drop)]
#[cycle(expression)]
pub enum Expression {
    Number(u32, Raw),
    Sized(u32, u8, Raw),
    Variable(u32, Name),
    If(u32, Marks, Box<Expression>, Box<Expression>, Box<Expression>),
    Let(u32, Marks, Vec<Bound>, Box<Expression>),
    Op(u32, Marks, Primitive, Vec<Expression>),
    Call(u32, Marks, Name, Vec<Expression>),
}

/// A binding: its place, its name, its width in bits if one is written, and its value.
#[derive(Drop)]
#[cycle(expression)]
pub struct Bound {
    pub place: u32,
    pub name: Name,
    pub width: Option<u8>,
    pub value: Expression,
}
