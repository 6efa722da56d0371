//! The tree of a source. Places are byte offsets; widths are in bits, from 1 to `WIDTH_MAX`.

use crate::dismantle::dismantle;
use crate::name::Name;
use safl_word::{Primitive, Raw};

/// A program: its definitions in the order of the text.
#[derive(Drop)]
pub struct Program {
    pub defs: Vec<Def>,
}

/// The definition of a function. Its place is that of the name. A joined one has `and` in place of `fun`, and belongs
/// to the group of the definition before it.
#[derive(Drop)]
pub struct Def {
    pub joined: bool,
    pub place: u32,
    pub name: Name,
    pub params: Vec<Param>,
    pub width: u8,
    pub body: Expr,
}

/// A parameter. Its place is that of the name.
#[derive(Drop)]
pub struct Param {
    pub place: u32,
    pub name: Name,
    pub width: u8,
}

/// An expression and its place. The place of an operator between operands is the first byte of its left operand, with
/// its parentheses; the place of an expression in parentheses is the `(`; and that of any other expression is its first
/// token.
#[cycle(expr)]
pub struct Expr {
    pub place: u32,
    pub node: Node,
}

// Written by hand, since a tree may be deeper than the stack allows.
impl Drop for Expr {
    fn drop(self) {
        dismantle(self);
    }
}

impl Expr {
    ghost use Rattle.std.specs.Prelude.{◌≡◌};

    /// The node of the expression, without its place.
    pub fn into_node(self) -> Node
        ensures { result ≡ self.node }
    {
        let Expr { place: _, node } = self;
        node
    }
}

/// The node of an expression. Parentheses leave no node. A `Case` has what it selects by, its labelled arms, and its
/// default.
#[derive(Drop)]
#[cycle(expr)]
pub enum Node {
    Num(Raw),
    Sized(u8, Raw),
    Var(Name),
    If(Box<Expr>, Box<Expr>, Box<Expr>),
    Let(Vec<Bind>, Box<Expr>),
    Case(Box<Expr>, Vec<Arm>, Box<Expr>),
    Op(Primitive, Vec<Expr>),
    Call(Name, Vec<Expr>),
}

/// A binding of a `let`, with its width if one is written. Its place is that of the name.
#[derive(Drop)]
#[cycle(expr)]
pub struct Bind {
    pub place: u32,
    pub name: Name,
    pub width: Option<u8>,
    pub value: Expr,
}

/// A labelled arm of a `case`.
#[derive(Drop)]
#[cycle(expr)]
pub struct Arm {
    pub label: Expr,
    pub value: Expr,
}
